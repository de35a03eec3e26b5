//! A store of which a test sees the answers alone.

use amcheck::{CheckFault, Report, check_one, check_parents_one};
use index_model::{Fault, Format, Limits, NoProgress, Session};
use page_action::{PageStore, find_misplaced};
use page_codec::Page;
use std::alloc::Global;

/// A store of which a test sees the answers alone. Of a store as it is, a function with few lines takes the
/// prover twice as long, since its type brings all that its calls promise.
pub trait PlainStore {
    /// Changes these pages at once; `PageDamaged` if a store would not take them.
    fn act(&mut self, pages: &[Page]) -> Result<u64, Fault>;

    fn page(&mut self, block: u32) -> Result<Page, Fault>;

    fn force(&mut self) -> Result<u64, Fault>;

    fn flush(&mut self) -> Result<Option<u32>, Fault>;

    fn checkpoint(&mut self) -> Result<u64, Fault>;

    fn begin(&mut self, session: Session) -> Result<u64, Fault>;

    fn pin(&mut self, session: Session, block: u32);

    fn unpin(&mut self, session: Session, block: u32);

    fn room(&self) -> u32;

    fn used(&self) -> u32;

    fn acts(&self) -> u64;

    fn durable(&self) -> u64;

    fn is_stopped(&self) -> bool;

    fn format(&self) -> Format;

    fn limits(&self) -> Limits;
}

impl<S: PageStore> PlainStore for S {
    fn act(&mut self, pages: &[Page]) -> Result<u64, Fault> {
        if pages.is_empty()
            || pages.len() > 4
            || find_misplaced(pages, PageStore::used(self), PageStore::format(self)).is_some()
        {
            return Err(Fault::PageDamaged(0));
        }
        PageStore::act(self, pages)
    }

    fn page(&mut self, block: u32) -> Result<Page, Fault> {
        PageStore::page(self, block)
    }

    fn force(&mut self) -> Result<u64, Fault> {
        PageStore::force(self)
    }

    fn flush(&mut self) -> Result<Option<u32>, Fault> {
        PageStore::flush(self)
    }

    fn checkpoint(&mut self) -> Result<u64, Fault> {
        PageStore::checkpoint(self)
    }

    fn begin(&mut self, session: Session) -> Result<u64, Fault> {
        PageStore::begin(self, session)
    }

    fn pin(&mut self, session: Session, block: u32) {
        PageStore::pin(self, session, block);
    }

    fn unpin(&mut self, session: Session, block: u32) {
        PageStore::unpin(self, session, block);
    }

    fn room(&self) -> u32 {
        PageStore::room(self)
    }

    fn used(&self) -> u32 {
        PageStore::used(self)
    }

    fn acts(&self) -> u64 {
        PageStore::acts(self)
    }

    fn durable(&self) -> u64 {
        PageStore::durable(self)
    }

    fn is_stopped(&self) -> bool {
        PageStore::is_stopped(self)
    }

    fn format(&self) -> Format {
        PageStore::format(self)
    }

    fn limits(&self) -> Limits {
        PageStore::limits(self)
    }
}

/// A store that the verifier reads, of which a test sees the answers alone.
pub trait CheckedStore: PlainStore {
    /// What the check of the levels answers.
    fn levels(&mut self, alloc: Global) -> Result<Report, CheckFault>;

    /// What the check of parents answers.
    fn parents(&mut self, alloc: Global) -> Result<Report, CheckFault>;
}

impl<S: PageStore> CheckedStore for S {
    fn levels(&mut self, alloc: Global) -> Result<Report, CheckFault> {
        check_one(alloc, self, &NoProgress)
    }

    fn parents(&mut self, alloc: Global) -> Result<Report, CheckFault> {
        check_parents_one(alloc, self, &NoProgress)
    }
}
