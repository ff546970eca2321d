//! Links.

/// A link from a key to a value.
#[derive(Clone, Copy, Drop)]
pub(crate) struct Link {
    pub(crate) key: u32,
    pub(crate) value: u32,
}
