ghost use Rattle.std.specs.Prelude.{◌≡◌, ℕ};
ghost use Rattle.commit_check.specs.Judged.{IsWeighed};
ghost use Rattle.commit_check.specs.Saturated.{saturated};

use own_model::{LimitName, Refusal, STORE_WEIGHT};

/// What is judged of a store's state as a whole.
#[derive(Debug, Drop)]
pub enum Judged {
    /// Its first fault.
    Fault(Refusal),
    /// It has no fault, and weighs so much.
    Weighs(u64),
}

/// What is judged of a weight: how much it is, unless it is greater than a store may have. Takes no memory.
pub fn judge_weight(weight: u64) -> Judged
    ensures { (whole : ℕ) → weight ≡ saturated whole → IsWeighed whole result }
{
    if weight > STORE_WEIGHT {
        Judged::Fault(Refusal::Limit(LimitName::Weight))
    } else {
        Judged::Weighs(weight)
    }
}
