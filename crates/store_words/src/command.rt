ghost use Rattle.std.specs.Prelude.{◌≡◌, false, IfOk};
ghost use Rattle.clap.specs.Words.{app_of, found_of, rows_of, rule_of, subcommand_rows_of};
ghost use Rattle.clap.specs.declared.builder.command.Command.TheViews.{out-Command};
ghost use Rattle.store_words.specs.Command.{command_app, make_app, make_matched, mode_matched, word_rule};
ghost use Rattle.store_words.specs.Words.{make_of};

use crate::numbers::number_up_to;
use crate::words::Mode;
use clap::{Arg, ArgMatches, Command};
use made_model::{PEOPLE, SEEDS};
use std::alloc::{AllocError, Global};

/// The command whose subcommands are the modes, without help and version.
pub(crate) fn command<'a>(alloc: Global) -> Result<Command<'a>, AllocError>
    ensures { IfOk result (λ command. app_of command ≡ command_app) }
{
    let make = make_command(alloc)?;
    Command::new(alloc, "subjectdb")
        .no_binary_name(true)
        .disable_help_flag(true)
        .disable_help_subcommand(true)
        .disable_version_flag(true)
        .subcommand_required(true)
        .subcommand(Command::new(alloc, "step"))?
        .subcommand(Command::new(alloc, "serve"))?
        .subcommand(make)
}

/// The subcommand of the mode with two numbers.
fn make_command<'a>(alloc: Global) -> Result<Command<'a>, AllocError>
    ensures app { IfOk result (λ command. app_of command ≡ make_app) }
    ensures local { IfOk result (λ command. (out-Command command).has_globals ≡ false) }
{
    Command::new(alloc, "make")
        .arg(word_of(alloc, "people"))?
        .arg(word_of(alloc, "seed"))
}

/// An argument that is one word, and has to be there.
fn word_of<'a>(alloc: Global, id: &'a str) -> Arg<'a>
    ensures rule { rule_of result ≡ word_rule id.now }
    ensures local { result.global ≡ false }
{
    Arg::new(alloc, id).required(true)
}

/// The mode of the subcommand that clap found, with the words that it read there.
pub(crate) fn mode_matched(matches: &ArgMatches<'_>) -> Option<Mode>
    ensures { result ≡ mode_matched (subcommand_rows_of matches.now) }
{
    match matches.subcommand() {
        Some(("step", _)) => Some(Mode::Step),
        Some(("serve", _)) => Some(Mode::Serve),
        Some(("make", words)) => make_matched(words),
        _ => None,
    }
}

/// The mode with the two words that clap read, where they are its numbers.
fn make_matched(words: &ArgMatches<'_>) -> Option<Mode>
    ensures { result ≡ make_matched (rows_of (found_of words.now)) }
{
    make_of(words.get_str("people")?, words.get_str("seed")?)
}

/// The mode with these two words, where they are its numbers.
fn make_of(people: &str, seed: &str) -> Option<Mode>
    ensures { result ≡ make_of people.now seed.now }
{
    Some(Mode::Make {
        people: number_up_to(PEOPLE, people)?,
        seed: number_up_to(SEEDS, seed)?,
    })
}
