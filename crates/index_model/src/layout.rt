//! The layouts of an index.

/// How the pages of an index are spelled. Its number stands in the superblock, and each page says its own.
#[derive(Clone, Copy, Debug, PartialEq, Eq)]
pub enum Layout {
    /// Each bound is an entry.
    One,
    /// A bound is an entry, or the place before all rows of a key.
    Two,
}
