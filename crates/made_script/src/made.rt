//! The parts of a large script, each put behind the calls so far.

ghost use Rattle.std.specs.Prelude.{◌≡◌, ◌<◌, ◌≤◌, ◌+◌, ◌*◌, ◌%◌, ◌==◌, ◌^◌, [], ◌∷◌, length, map, codes, if◌then◌else◌, IfOk, OnOk};
ghost use Rattle.std.specs.List.{flat_map, range_with_len};
ghost use Rattle.made_model.specs.declared.limits.TheConstants.{PEOPLE, SEEDS};
ghost use Rattle.made_model.specs.Made.{IsMade};
ghost use Rattle.made_model.specs.MadeTexts.{erased_people, erased_text, erasure_texts, given_text, note_text, schema_texts, shown_text, taken_text, transfer_texts, user_text};
ghost use Rattle.made_script.specs.Asking.{AskMore};

use crate::asking::{ask, put};
use crate::draws::Draws;
use crate::texts::{erased, given, noted, shown, taken, user};
use own_base::List;
use own_model::{Request, Script, ScriptCall};
use std::alloc::{AllocError, Global};
use std::mem::drop;

/// How many numbers a note's is drawn from.
const NUMBERS: u32 = 1000;

/// How many amounts a transfer's is drawn from.
const AMOUNTS: u32 = 100;

/// Asks for the tables and the view.
fn ask_schema(calls: &mut Vec<ScriptCall>, alloc: Global) -> Result<(), AllocError>
    requires { length calls.old.items ≤ 2 ^ 30 }
    ensures asks { OnOk result (AskMore calls.old.items schema_texts calls.new.items) }
    ensures longer { OnOk result (length calls.new.items ≡ length calls.old.items + 3) }
{
    ask(
        calls,
        alloc,
        "CREATE DATA_SUBJECT TABLE users (id INT PRIMARY KEY, name TEXT)",
    )?;
    ask(
        calls,
        alloc,
        "CREATE TABLE notes (id INT PRIMARY KEY, a INT OWNED_BY users(id), b INT OWNED_BY users(id), n INT, ON GET b ANON (n), ON DEL a ANON (n))",
    )?;
    ask(
        calls,
        alloc,
        "CREATE VIEW held AS SELECT a, COUNT(*), SUM(n) FROM notes GROUP BY a",
    )
}

/// Asks for a person.
fn ask_user(calls: &mut Vec<ScriptCall>, alloc: Global, number: u32) -> Result<(), AllocError>
    requires number { number ≤ PEOPLE }
    requires room { length calls.old.items < 2 ^ 31 }
    ensures asks { OnOk result (AskMore calls.old.items (user_text number ∷ []) calls.new.items) }
    ensures longer { OnOk result (length calls.new.items ≡ length calls.old.items + 1) }
{
    let text = user(alloc, number)?;
    ask(calls, alloc, &text)
}

/// Asks for each person.
fn ask_users(calls: &mut Vec<ScriptCall>, alloc: Global, people: u32) -> Result<(), AllocError>
    requires few { people ≤ PEOPLE }
    requires room { length calls.old.items + people ≤ 2 ^ 30 }
    ensures asks { OnOk result (AskMore calls.old.items (map user_text (range_with_len 1 people)) calls.new.items) }
    ensures longer { OnOk result (length calls.new.items ≡ length calls.old.items + people) }
{
    for before in 0..people {
        ask_user(calls, alloc, before + 1)?;
    }
    Ok(())
}

/// Asks for the note behind so many others.
#[tactic(auto, unfolding(made_model::specs::MadeTexts::note_text))]
fn ask_note(
    calls: &mut Vec<ScriptCall>,
    alloc: Global,
    people: u32,
    before: u32,
    draws: &mut Draws,
) -> Result<(), AllocError>
    requires few { people ≤ PEOPLE }
    requires before { before < people }
    requires room { length calls.old.items < 2 ^ 31 }
    requires drawn { draws.old.drawn ≡ 3 * before }
    ensures asks { OnOk result (AskMore calls.old.items (note_text people draws.old.seed before ∷ []) calls.new.items) }
    ensures longer { OnOk result (length calls.new.items ≡ length calls.old.items + 1) }
    ensures seed { draws.new.seed ≡ draws.old.seed }
    ensures drawn { draws.new.drawn ≡ 3 * before + 3 }
{
    let a = 1 + draws.draw(people);
    let b = 1 + draws.draw(people);
    let n = draws.draw(NUMBERS);
    let text = noted(alloc, before + 1, a, b, n)?;
    ask(calls, alloc, &text)
}

/// Asks for a note for each person.
fn ask_notes(
    calls: &mut Vec<ScriptCall>,
    alloc: Global,
    people: u32,
    draws: &mut Draws,
) -> Result<(), AllocError>
    requires few { people ≤ PEOPLE }
    requires room { length calls.old.items + people ≤ 2 ^ 30 }
    requires drawn { draws.old.drawn ≡ 0 }
    ensures asks { OnOk result (AskMore calls.old.items (map (note_text people draws.old.seed) (range_with_len 0 people)) calls.new.items) }
    ensures longer { OnOk result (length calls.new.items ≡ length calls.old.items + people) }
    ensures seed { OnOk result (draws.new.seed ≡ draws.old.seed) }
    ensures drawn { OnOk result (draws.new.drawn ≡ 3 * people) }
{
    for before in 0..people {
        ask_note(calls, alloc, people, before, draws)?;
    }
    Ok(())
}

/// Asks that a note's number become smaller.
fn ask_taken(
    calls: &mut Vec<ScriptCall>,
    alloc: Global,
    amount: u32,
    note: u32,
) -> Result<(), AllocError>
    requires amount { amount < 100 }
    requires note { note ≤ PEOPLE }
    requires room { length calls.old.items < 2 ^ 31 }
    ensures asks { OnOk result (AskMore calls.old.items (taken_text amount note ∷ []) calls.new.items) }
    ensures longer { OnOk result (length calls.new.items ≡ length calls.old.items + 1) }
{
    let text = taken(alloc, amount, note)?;
    ask(calls, alloc, &text)
}

/// Asks that a note's number become larger.
fn ask_given(
    calls: &mut Vec<ScriptCall>,
    alloc: Global,
    amount: u32,
    note: u32,
) -> Result<(), AllocError>
    requires amount { amount < 100 }
    requires note { note ≤ PEOPLE }
    requires room { length calls.old.items < 2 ^ 31 }
    ensures asks { OnOk result (AskMore calls.old.items (given_text amount note ∷ []) calls.new.items) }
    ensures longer { OnOk result (length calls.new.items ≡ length calls.old.items + 1) }
{
    let text = given(alloc, amount, note)?;
    ask(calls, alloc, &text)
}

/// Asks for a transfer of an amount from one note to another.
fn ask_moved(
    calls: &mut Vec<ScriptCall>,
    alloc: Global,
    amount: u32,
    from: u32,
    to: u32,
) -> Result<(), AllocError>
    requires amount { amount < 100 }
    requires from { from ≤ PEOPLE }
    requires to { to ≤ PEOPLE }
    requires room { length calls.old.items ≤ 2 ^ 30 }
    ensures asks { OnOk result (AskMore calls.old.items (codes "BEGIN" ∷ taken_text amount from ∷ given_text amount to ∷ codes "COMMIT" ∷ []) calls.new.items) }
    ensures longer { OnOk result (length calls.new.items ≡ length calls.old.items + 4) }
{
    ask(calls, alloc, "BEGIN")?;
    ask_taken(calls, alloc, amount, from)?;
    ask_given(calls, alloc, amount, to)?;
    ask(calls, alloc, "COMMIT")
}

/// Asks for a transfer of a drawn amount between two drawn notes.
#[tactic(auto, unfolding(made_model::specs::MadeTexts::transfer_texts))]
fn ask_transfer(
    calls: &mut Vec<ScriptCall>,
    alloc: Global,
    people: u32,
    draws: &mut Draws,
) -> Result<(), AllocError>
    requires some { 0 < people }
    requires few { people ≤ PEOPLE }
    requires room { length calls.old.items ≤ 2 ^ 30 }
    requires drawn { draws.old.drawn ≤ 2 ^ 30 }
    ensures asks { OnOk result (AskMore calls.old.items (transfer_texts people draws.old.seed draws.old.drawn) calls.new.items) }
    ensures longer { OnOk result (length calls.new.items ≡ length calls.old.items + 4) }
    ensures seed { draws.new.seed ≡ draws.old.seed }
    ensures drawn { draws.new.drawn ≡ draws.old.drawn + 3 }
{
    let from = 1 + draws.draw(people);
    let to = 1 + draws.draw(people);
    let amount = draws.draw(AMOUNTS);
    ask_moved(calls, alloc, amount, from, to)
}

/// Asks for a transfer for each person.
fn ask_transfers(
    calls: &mut Vec<ScriptCall>,
    alloc: Global,
    people: u32,
    draws: &mut Draws,
) -> Result<(), AllocError>
    requires few { people ≤ PEOPLE }
    requires room { length calls.old.items + 4 * people ≤ 2 ^ 30 }
    requires drawn { draws.old.drawn ≡ 3 * people }
    ensures asks { OnOk result (AskMore calls.old.items (flat_map (λ before. transfer_texts people draws.old.seed (3 * people + 3 * before)) (range_with_len 0 people)) calls.new.items) }
    ensures longer { OnOk result (length calls.new.items ≡ length calls.old.items + 4 * people) }
{
    for _before in 0..people {
        ask_transfer(calls, alloc, people, draws)?;
    }
    Ok(())
}

/// Asks what is held about a person.
fn ask_shown(calls: &mut Vec<ScriptCall>, alloc: Global, number: u32) -> Result<(), AllocError>
    requires number { number ≤ PEOPLE }
    requires room { length calls.old.items < 2 ^ 31 }
    ensures asks { OnOk result (AskMore calls.old.items (shown_text number ∷ []) calls.new.items) }
    ensures longer { OnOk result (length calls.new.items ≡ length calls.old.items + 1) }
{
    let text = shown(alloc, number)?;
    ask(calls, alloc, &text)
}

/// Asks that a person be erased.
fn ask_erased(calls: &mut Vec<ScriptCall>, alloc: Global, number: u32) -> Result<(), AllocError>
    requires number { number ≤ PEOPLE }
    requires room { length calls.old.items < 2 ^ 31 }
    ensures asks { OnOk result (AskMore calls.old.items (erased_text number ∷ []) calls.new.items) }
    ensures longer { OnOk result (length calls.new.items ≡ length calls.old.items + 1) }
{
    let text = erased(alloc, number)?;
    ask(calls, alloc, &text)
}

/// Asks what is held about a person, and that it be erased, where it is one of every fourth.
#[tactic(auto, unfolding(made_model::specs::MadeTexts::erasure_texts))]
fn ask_erasure(calls: &mut Vec<ScriptCall>, alloc: Global, number: u32) -> Result<(), AllocError>
    requires number { number ≤ PEOPLE }
    requires room { length calls.old.items ≤ 2 ^ 30 }
    ensures asks { OnOk result (AskMore calls.old.items (if number % 4 == 1 then erasure_texts number else []) calls.new.items) }
    ensures longer { OnOk result (length calls.new.items ≤ length calls.old.items + 2) }
{
    if number % 4 != 1 {
        return Ok(());
    }
    ask_shown(calls, alloc, number)?;
    ask_erased(calls, alloc, number)
}

/// Asks that every fourth person be shown what is held about it, and erased.
fn ask_erasures(calls: &mut Vec<ScriptCall>, alloc: Global, people: u32) -> Result<(), AllocError>
    requires few { people ≤ PEOPLE }
    requires room { length calls.old.items + 2 * people ≤ 2 ^ 30 }
    ensures asks { OnOk result (AskMore calls.old.items (flat_map erasure_texts (erased_people people)) calls.new.items) }
    ensures longer { OnOk result (length calls.new.items ≤ length calls.old.items + 2 * people) }
{
    for before in 0..people {
        ask_erasure(calls, alloc, before + 1)?;
    }
    Ok(())
}

/// Asks for all of it, and for the End.
fn ask_all(
    calls: &mut Vec<ScriptCall>,
    alloc: Global,
    people: u32,
    seed: u32,
) -> Result<(), AllocError>
    requires some { 1 ≤ people }
    requires few { people ≤ PEOPLE }
    requires none { calls.old.items ≡ [] }
    ensures { OnOk result (IsMade people seed calls.new.items) }
{
    let mut draws = Draws::from_seed(seed);
    ask_schema(calls, alloc)?;
    ask_users(calls, alloc, people)?;
    ask_notes(calls, alloc, people, &mut draws)?;
    ask_transfers(calls, alloc, people, &mut draws)?;
    ask_erasures(calls, alloc, people)?;
    ask(calls, alloc, "SELECT * FROM held")?;
    put(calls, Request::End)
}

/// The calls of a large script. Takes memory for the calls, and for reading each.
pub fn make_script(alloc: Global, people: u32, seed: u32) -> Result<Script, AllocError>
    requires some { 1 ≤ people }
    requires few { people ≤ PEOPLE }
    requires seeded { 1 ≤ seed }
    requires low { seed ≤ SEEDS }
    ensures { IfOk result (λ script. IsMade people seed script.calls) }
{
    let erased = people.div_ceil(4);
    let mut calls = Vec::with_capacity(alloc, (6 * people + 2 * erased + 5) as usize)?;
    match ask_all(&mut calls, alloc, people, seed) {
        Ok(()) => Ok(Script {
            calls: List::from_vec(calls),
        }),
        Err(AllocError) => {
            drop(calls);
            Err(AllocError)
        }
    }
}
