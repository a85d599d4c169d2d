ghost use Rattle.std.specs.Prelude.{◌≡◌};
ghost use Rattle.reply_json.specs.Wording.{refusal_name, refusal_number, refusal_sentence};

use own_model::Refusal;

/// The number of a refusal.
pub fn refusal_number(refusal: &Refusal) -> u32
    ensures { result ≡ refusal_number refusal.now }
{
    match refusal {
        Refusal::Syntax(_) => 1,
        Refusal::NoTable(_) => 2,
        Refusal::NoColumn(_) => 3,
        Refusal::WrongKind(_) => 4,
        Refusal::Count { .. } => 5,
        Refusal::NameTaken(_) => 6,
        Refusal::BadSchema { .. } => 7,
        Refusal::Cycle { .. } => 8,
        Refusal::HasRows(_) => 9,
        Refusal::KeyWrite(_) => 10,
        Refusal::NotSubject(_) => 11,
        Refusal::NullValue(_) => 12,
        Refusal::Duplicate { .. } => 13,
        Refusal::Range(_) => 14,
        Refusal::Inside => 15,
        Refusal::Outside => 16,
        Refusal::Busy(_) => 17,
        Refusal::Conflict { .. } => 18,
        Refusal::Doomed(_) => 19,
        Refusal::NoSubject { .. } => 20,
        Refusal::Unique { .. } => 21,
        Refusal::Reference { .. } => 22,
        Refusal::Owner { .. } => 23,
        Refusal::TooBig(_) => 24,
        Refusal::Limit(_) => 25,
        Refusal::Disk => 26,
        Refusal::Down(_) => 27,
        Refusal::Memory => 28,
    }
}

/// The word by which a refusal is known.
#[tactic(auto, unfolding(crate::specs::Wording::refusal_name))]
pub fn refusal_name(refusal: &Refusal) -> &'static str
    ensures { result.now ≡ refusal_name refusal.now }
{
    match refusal {
        Refusal::Syntax(_) => "syntax",
        Refusal::NoTable(_) => "table",
        Refusal::NoColumn(_) => "column",
        Refusal::WrongKind(_) => "kind",
        Refusal::Count { .. } => "count",
        Refusal::NameTaken(_) => "taken",
        Refusal::BadSchema { .. } => "schema",
        Refusal::Cycle { .. } => "cycle",
        Refusal::HasRows(_) => "rows",
        Refusal::KeyWrite(_) => "key",
        Refusal::NotSubject(_) => "subject",
        Refusal::NullValue(_) => "null",
        Refusal::Duplicate { .. } => "duplicate",
        Refusal::Range(_) => "range",
        Refusal::Inside => "inside",
        Refusal::Outside => "outside",
        Refusal::Busy(_) => "busy",
        Refusal::Conflict { .. } => "conflict",
        Refusal::Doomed(_) => "doomed",
        Refusal::NoSubject { .. } => "absent",
        Refusal::Unique { .. } => "unique",
        Refusal::Reference { .. } => "reference",
        Refusal::Owner { .. } => "owner",
        Refusal::TooBig(_) => "big",
        Refusal::Limit(_) => "limit",
        Refusal::Disk => "disk",
        Refusal::Down(_) => "down",
        Refusal::Memory => "memory",
    }
}

/// What a refusal means, in a sentence: that of the page docs/refusals.md.
#[tactic(auto, unfolding(crate::specs::Wording::refusal_sentence))]
pub fn refusal_sentence(refusal: &Refusal) -> &'static str
    ensures { result.now ≡ refusal_sentence refusal.now }
{
    match refusal {
        Refusal::Syntax(_) => "No statement goes on at this byte of the call's text.",
        Refusal::NoTable(_) => "This has to be the name of a table, and is not.",
        Refusal::NoColumn(_) => "This has to be the name of a column, and is not.",
        Refusal::WrongKind(_) => "A number and a text meet where both have to be of one kind.",
        Refusal::Count { .. } => "There are more or fewer values than are asked for.",
        Refusal::NameTaken(_) => "There is a table or a view of this name.",
        Refusal::BadSchema { .. } => "The table or view breaks a rule of schemas.",
        Refusal::Cycle { .. } => "With its edges a walk would lead from the table back to it.",
        Refusal::HasRows(_) => "A column of the new table owns this table, which holds rows.",
        Refusal::KeyWrite(_) => "This column is the primary key, which is not set.",
        Refusal::NotSubject(_) => "This is no DATA_SUBJECT table.",
        Refusal::NullValue(_) => "This column takes no NULL.",
        Refusal::Duplicate { .. } => "A row with this key is there.",
        Refusal::Range(_) => "A sum for this column needs more than 64 bits.",
        Refusal::Inside => "The session is in a transaction, where this call is not made.",
        Refusal::Outside => "The session is in no transaction.",
        Refusal::Busy(_) => "Another session is in a transaction.",
        Refusal::Conflict { .. } => "The transaction of another session is in the way.",
        Refusal::Doomed(_) =>
            "A GDPR FORGET ended the session's transaction, and this call was not made.",
        Refusal::NoSubject { .. } => "There is no such row.",
        Refusal::Unique { .. } => "Another row has this row's value in a column that is UNIQUE.",
        Refusal::Reference { .. } => "The column of this row would name a row that is not there.",
        Refusal::Owner { .. } => "This row of a private table would have no owner.",
        Refusal::TooBig(_) => "What the call changes takes too many bytes.",
        Refusal::Limit(_) => "The call or what it leaves passes a limit.",
        Refusal::Disk => "The disk failed, and whether the call is kept is not known.",
        Refusal::Down(_) => "The disk failed at an earlier call, and no other call is made.",
        Refusal::Memory => "Memory ran out, and the call was not made.",
    }
}
