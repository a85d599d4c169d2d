/// A call of a source, a sink or a disk met a fault. The count of faults of that object rose in the call.
#[derive(Clone, Copy, Debug, PartialEq, Eq, Hash)]
pub struct Failed;
