/// A row of an edge's lower table and a row of its upper table that it joins, by their places.
#[derive(Clone, Copy, Debug)]
pub struct Link {
    pub lower: u64,
    pub upper: u64,
}
