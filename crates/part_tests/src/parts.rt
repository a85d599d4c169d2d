ghost use Rattle.std.specs.Prelude.{◌≡◌};

use crate::handed_in::{are_keyed, is_keyed, keys_differ};
use crate::made::KEY;
use own_base::Change;
use std::process::Abort;
use table_part::TablePart;

/// The part with changes, which have to be such as may be handed in.
pub fn changed(rt: &(impl Abort + AllocGlobal), part: &TablePart, changes: &[Change]) -> TablePart
    requires { part.now.key ≡ KEY }
    ensures { result.key ≡ KEY }
{
    assert!(rt; keys_differ(changes));
    assert!(rt; are_keyed(changes));
    part.with_changes(rt.alloc(), changes).expect(rt, "memory")
}

/// The part with these changes alone.
pub fn part_with(rt: &(impl Abort + AllocGlobal), changes: &[Change]) -> TablePart
    ensures { result.key ≡ KEY }
{
    let empty = TablePart::new(KEY);
    changed(rt, &empty, changes)
}

/// Makes changes one after another in a part itself.
pub fn change_each(rt: &(impl Abort + AllocGlobal), part: &mut TablePart, changes: &[Change])
    requires { part.old.key ≡ KEY }
    ensures { part.new.key ≡ KEY }
{
    for change in changes {
        assert!(rt; is_keyed(change));
        part.change(rt.alloc(), change).expect(rt, "memory");
    }
}
