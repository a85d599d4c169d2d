use own_model::Bound;

/// What a statement was bound to before its call was made, and over a schema of how many creates. Where the store has no more
/// creates when the call is made, it means the same there.
#[derive(Debug, Drop)]
pub struct Ahead {
    pub creates: usize,
    pub bound: Bound,
}
