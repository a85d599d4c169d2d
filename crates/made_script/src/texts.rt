//! The texts of the statements that tell of people, notes and amounts by number.

ghost use Rattle.std.specs.Prelude.{◌≡◌, string_bytes, IfOk};
ghost use Rattle.made_model.specs.MadeTexts.{erased_text, given_text, noted_text, shown_text, taken_text, user_text};

use std::alloc::{AllocError, Global};

/// The INSERT of a person.
#[tactic(auto, unfolding(made_model::specs::MadeTexts::user_text))]
pub(crate) fn user(alloc: Global, number: u32) -> Result<String, AllocError>
    ensures { IfOk result (λ text. string_bytes text ≡ user_text number) }
{
    format!(in alloc; "INSERT INTO users VALUES ({number}, 'u')")
}

/// The INSERT of a note of two people, with a number.
#[tactic(auto, unfolding(made_model::specs::MadeTexts::noted_text))]
pub(crate) fn noted(
    alloc: Global,
    number: u32,
    a: u32,
    b: u32,
    n: u32,
) -> Result<String, AllocError>
    ensures { IfOk result (λ text. string_bytes text ≡ noted_text number a b n) }
{
    format!(in alloc; "INSERT INTO notes VALUES ({number}, {a}, {b}, {n})")
}

/// The UPDATE that makes a note's number smaller.
#[tactic(auto, unfolding(made_model::specs::MadeTexts::taken_text))]
pub(crate) fn taken(alloc: Global, amount: u32, note: u32) -> Result<String, AllocError>
    ensures { IfOk result (λ text. string_bytes text ≡ taken_text amount note) }
{
    format!(in alloc; "UPDATE notes SET n = n - {amount} WHERE id = {note}")
}

/// The UPDATE that makes a note's number larger.
#[tactic(auto, unfolding(made_model::specs::MadeTexts::given_text))]
pub(crate) fn given(alloc: Global, amount: u32, note: u32) -> Result<String, AllocError>
    ensures { IfOk result (λ text. string_bytes text ≡ given_text amount note) }
{
    format!(in alloc; "UPDATE notes SET n = n + {amount} WHERE id = {note}")
}

/// The GET of a person.
#[tactic(auto, unfolding(made_model::specs::MadeTexts::shown_text))]
pub(crate) fn shown(alloc: Global, number: u32) -> Result<String, AllocError>
    ensures { IfOk result (λ text. string_bytes text ≡ shown_text number) }
{
    format!(in alloc; "GDPR GET users {number}")
}

/// The FORGET of a person.
#[tactic(auto, unfolding(made_model::specs::MadeTexts::erased_text))]
pub(crate) fn erased(alloc: Global, number: u32) -> Result<String, AllocError>
    ensures { IfOk result (λ text. string_bytes text ≡ erased_text number) }
{
    format!(in alloc; "GDPR FORGET users {number}")
}
