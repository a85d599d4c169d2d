ghost use Rattle.std.specs.Prelude.{◌≡◌};
ghost use Rattle.outer_world.specs.PieceLength.{piece_length as length_of};

/// How many of so many bytes one call moves. Takes no memory.
pub(crate) fn piece_length(most: Option<u32>, count: usize) -> usize
    ensures { result ≡ length_of most count }
{
    match most {
        None => count,
        Some(most) => count.min(most as usize),
    }
}
