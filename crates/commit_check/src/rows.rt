ghost use Rattle.std.specs.Prelude.{◌≡◌, ◌≤◌, ◌<◌, ◌++◌, min, ◌-◌, ◌^◌, length, if◌then◌else◌, nat_lt, None, Some, sum_by};
ghost use Rattle.schema_model.specs.WithinLimits.{IsWithinLimits};
ghost use Rattle.state_model.specs.Weight.{row_count};

use own_base::TableNo;
use own_model::{LimitName, Refusal, STORE_ROWS, StoreView};

/// How many rows all tables have together, and no more than 64 bits tell. Takes no memory.
pub fn row_count<V: StoreView>(view: &V) -> u64
    requires limits { IsWithinLimits (V.db view.now).schema }
    ensures { result ≡ min (row_count (V.db view.now)) (2 ^ 64 - 1) }
{
    let mut count: u64 = 0;
    for number in 0..view.schema().tables.items().len() as u32 {
        count = count.saturating_add(view.count(TableNo(number)));
    }
    count
}

/// More rows than a store may have. Takes no memory.
pub fn row_limit_fault<V: StoreView>(view: &V) -> Option<Refusal>
    requires limits { IsWithinLimits (V.db view.now).schema }
    ensures { result ≡ (if nat_lt STORE_ROWS (row_count (V.db view.now)) then Some (Refusal.Limit LimitName.Rows) else None) }
{
    if row_count(view) > STORE_ROWS {
        Some(Refusal::Limit(LimitName::Rows))
    } else {
        None
    }
}
