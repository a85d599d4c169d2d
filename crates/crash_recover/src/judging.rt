ghost use Rattle.std.specs.Prelude.{IfOk};
ghost use Rattle.crash_recover.specs.Recovered.{IsFound};

use crate::area::{judge_area, opened_epoch};
use crate::judged::Judged;
use own_base::Area;
use std::alloc::{AllocError, Global};
use std::cmp::Ordering;

/// What the bytes of two areas are judged to be. Each commit is judged by what it changes, over the state that those
/// before it leave, so that many commits take the time of making them.
pub fn judge(alloc: Global, a: &[u8], b: &[u8]) -> Result<Judged, AllocError>
    ensures { IfOk result (IsFound a.now b.now) }
{
    match (opened_epoch(a), opened_epoch(b)) {
        (None, None) => Ok(Judged::Empty),
        (Some(_), None) => judge_area(alloc, Area::A, a),
        (None, Some(_)) => judge_area(alloc, Area::B, b),
        (Some(of_a), Some(of_b)) => match of_a.cmp(&of_b) {
            Ordering::Greater => judge_area(alloc, Area::A, a),
            Ordering::Less => judge_area(alloc, Area::B, b),
            Ordering::Equal => Ok(Judged::Damaged {
                area: Area::B,
                offset: 1,
            }),
        },
    }
}
