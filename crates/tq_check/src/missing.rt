// A period in which something is missing.

/// The instants from `from` up to, and not including, `to`.
#[derive(Clone, Copy, Debug)]
pub(crate) struct Missing {
    pub(crate) from: u64,
    pub(crate) to: u64,
}
