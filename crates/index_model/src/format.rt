//! What a superblock says of an index.

ghost use Rattle.std.specs.Prelude.{◌≡◌, ◌↔◌, IsTrue};
ghost use Rattle.index_model.specs.Formats.{made, sizes_of};
ghost use Rattle.index_model.specs.Limits.{Admits, AreLimits};

use crate::layout::Layout;
use crate::limits::Limits;

/// What a superblock says of an index: its layout, whether it is unique, and the sizes that it was
/// made with.
#[derive(Clone, Copy, Debug, PartialEq, Eq)]
pub struct Format {
    /// How its pages are spelled.
    pub layout: Layout,
    /// Whether no two of its entries may share a key.
    pub unique: bool,
    /// Items that a page holds at most: 4 to 50.
    pub items: u32,
    /// Blocks, block 0 included: 8 to 65,536.
    pub pages: u32,
    /// Bytes of the log: 65,536 to 16,777,216, a multiple of 4,096.
    pub log_bytes: u32,
}

impl Format {
    /// That of an index which is made so.
    pub fn new(limits: &Limits) -> Format
        ensures { result ≡ made limits.now }
    {
        Format {
            layout: Layout::Two,
            unique: limits.unique,
            items: limits.items,
            pages: limits.pages,
            log_bytes: limits.log_bytes,
        }
    }

    /// Whether an index may have it: each size is in its range, and it isn't unique in the first
    /// layout.
    pub fn are_valid(&self) -> bool
        ensures { IsTrue result ↔ AreLimits self.now }
    {
        self.limits().are_valid() && (!self.unique || matches!(self.layout, Layout::Two))
    }

    /// Whether an index of this layout may have a page of that one.
    pub fn admits(&self, layout: Layout) -> bool
        ensures { IsTrue result ↔ Admits self.now.layout layout }
    {
        match self.layout {
            Layout::One => true,
            Layout::Two => matches!(layout, Layout::Two),
        }
    }

    /// What such an index is made with.
    pub fn limits(&self) -> Limits
        ensures { result ≡ sizes_of self.now }
    {
        Limits {
            items: self.items,
            pages: self.pages,
            log_bytes: self.log_bytes,
            unique: self.unique,
        }
    }
}
