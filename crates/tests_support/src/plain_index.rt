//! An index of one user of which a test sees the answers alone.

use access_method::{Index, Inserted, ScanToken};
use index_model::{DeadRows, Entry, Fault, Range, VacuumStats};
use page_action::PageStore;

/// An index of one user of which a test sees the answers alone, as of a
/// [`PlainStore`](crate::plain_store::PlainStore).
pub trait PlainIndex {
    fn insert(&mut self, entry: Entry) -> Result<Inserted, Fault>;

    fn commit(&mut self) -> Result<u64, Fault>;

    fn checkpoint(&mut self) -> Result<u64, Fault>;

    fn begin_scan(&mut self, range: Range) -> Result<ScanToken, Fault>;

    fn rescan(&mut self, token: ScanToken, range: Range) -> Result<(), Fault>;

    /// The next entry of a scan, or None at its end.
    fn next(&mut self, token: ScanToken) -> Result<Option<Entry>, Fault>;

    fn end_scan(&mut self, token: ScanToken) -> Result<(), Fault>;

    fn bulk_delete<T: DeadRows>(&mut self, dead: &T) -> Result<VacuumStats, Fault>;

    fn clean_up(&mut self) -> Result<VacuumStats, Fault>;
}

impl<S: PageStore> PlainIndex for Index<S> {
    fn insert(&mut self, entry: Entry) -> Result<Inserted, Fault> {
        self.aminsert(entry)
    }

    fn commit(&mut self) -> Result<u64, Fault> {
        Index::commit(self)
    }

    fn checkpoint(&mut self) -> Result<u64, Fault> {
        Index::checkpoint(self)
    }

    fn begin_scan(&mut self, range: Range) -> Result<ScanToken, Fault> {
        self.ambeginscan(range)
    }

    fn rescan(&mut self, token: ScanToken, range: Range) -> Result<(), Fault> {
        self.amrescan(token, range)
    }

    fn next(&mut self, token: ScanToken) -> Result<Option<Entry>, Fault> {
        self.amgettuple(token)
    }

    fn end_scan(&mut self, token: ScanToken) -> Result<(), Fault> {
        self.amendscan(token)
    }

    fn bulk_delete<T: DeadRows>(&mut self, dead: &T) -> Result<VacuumStats, Fault> {
        self.ambulkdelete(dead)
    }

    fn clean_up(&mut self) -> Result<VacuumStats, Fault> {
        self.amvacuumcleanup()
    }
}
