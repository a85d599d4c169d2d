/// Whether a row comes in or goes out.
#[derive(Clone, Copy, Debug)]
pub(crate) enum Way {
    In,
    Out,
}
