//! What a check answers.

use index_model::Fault;
use thiserror::Error;

/// What stands on the pages of a sound index.
#[derive(Clone, Copy, Debug, PartialEq, Eq)]
pub struct Report {
    /// From the root's level to the leaves, 1 to 32.
    pub levels: u32,
    /// The blocks in use, block 0 included.
    pub pages: u32,
    /// The entries on live leaves.
    pub entries: u32,
    /// The half-dead pages.
    pub half_dead: u32,
    /// The deleted pages.
    pub deleted: u32,
    /// The pages whose split is incomplete.
    pub unfinished: u32,
}

/// Why a check answers no report.
#[derive(Clone, Copy, Debug, PartialEq, Eq, Error)]
pub enum CheckFault {
    /// The first damage, by its number:
    ///
    /// 1. a page of another level or kind than its place demands, or a number that is not in use;
    /// 2. a left link that isn't the page before it in the chain;
    /// 3. a chain that comes back to a page already met;
    /// 4. a deleted page in a chain;
    /// 5. a live page's high key isn't greater than its low, the high key of the nearest page to the
    ///    left that isn't half-dead;
    /// 6. an entry, or a bound after the first, that isn't greater than its page's low;
    /// 7. an item's bound isn't the low of its child (of the first item: the parent's low);
    /// 8. a page below the root's level lacks its downlink;
    /// 9. a downlink to a half-dead page, to one right after a page with an incomplete split or to one on no
    ///    chain, or a second downlink to a page;
    /// 10. a page too many on the root's level;
    /// 11. a page in use, neither deleted nor the metapage, on no chain;
    /// 12. a half-dead page right after one with an incomplete split;
    /// 13. on a unique index alone: a page on a chain that has a whole entry as its high key or as one of its
    ///    bounds, or an entry whose key is the one before it.
    #[error("damage {number} block {block}")]
    Damage {
        number: u8,
        /// The page at that place; for 1 the number that is met there, for 7 and 9 the page that holds the
        /// item.
        block: u32,
    },
    /// The check was refused.
    #[error("{0}")]
    Refused(Fault),
}

/// A damage, by its number, and its block.
#[derive(Clone, Copy)]
pub(crate) struct Damage {
    pub(crate) number: u8,
    pub(crate) block: u32,
}
