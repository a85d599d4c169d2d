use own_base::SessionNo;
use own_model::FootItem;

/// A session that stands in the way, and the first item of the footprint in whose way it stands.
#[derive(Clone, Copy, Debug)]
pub struct HeldItem<'f> {
    pub session: SessionNo,
    pub item: &'f FootItem,
}
