//! Calls of a session without their contracts, but that the session keeps its number: a test looks at the
//! answers alone.

ghost use Rattle.std.specs.Prelude.{◌≡◌};
ghost use Rattle.shared_index.specs.Sessions.{number_of_seat};

use index_model::{DeadRows, Entry, Fault, Range, VacuumStats};
use page_action::PageStore;
use shared_index::{NotPut, RowsDeleted, SharedIndex, SharedSession};
use shared_world::OriginOn;
use std::sync::Wait;
use std::time::{Clock, Duration};

/// What a bulk delete told that brought a set: how many entries it removed, and the set that was there.
pub type Deleted<T> = (Result<u64, Fault>, T);

/// A session of an index `X` that threads share: a test sees the answers alone, and that the session keeps
/// its number. A function over `SharedIndex` and `SharedSession` takes the prover several times as long.
pub trait PlainSession<X> {
    ghost use Rattle.std.specs.Prelude.{◌≡◌, ℕ};

    /// The sets of dead rows that its bulk deletes bring.
    type Rows: Drop;

    ghost number: { Self → ℕ };

    fn set_patience(&mut self, patience: Option<Duration>)
        ensures { number self.new ≡ number self.old };

    /// Inserts an entry: by which action.
    fn insert<R: Wait + Clock>(&mut self, rt: &R, index: &X, entry: Entry) -> Result<u64, Fault>
        ensures { number self.new ≡ number self.old };

    /// Deletes by the set at this place: how many entries that removed.
    fn bulk_delete<R: Wait + Clock>(&mut self, rt: &R, index: &X, set: u32) -> Result<u64, Fault>
        ensures { number self.new ≡ number self.old };

    /// Deletes by this set. If it is refused, it comes back.
    fn delete_rows<R: Wait + Clock>(
        &mut self,
        rt: &R,
        index: &X,
        set: Self::Rows,
    ) -> Result<Deleted<Self::Rows>, (Fault, Self::Rows)>
        ensures { number self.new ≡ number self.old };

    fn clean_up<R: Wait + Clock>(&mut self, rt: &R, index: &X) -> Result<(), Fault>
        ensures { number self.new ≡ number self.old };

    fn commit<R: Wait + Clock>(&mut self, rt: &R, index: &X) -> Result<u64, Fault>
        ensures { number self.new ≡ number self.old };

    fn checkpoint<R: Wait + Clock>(&mut self, rt: &R, index: &X) -> Result<u64, Fault>
        ensures { number self.new ≡ number self.old };

    fn scan<R: Wait + Clock>(&mut self, rt: &R, index: &X, range: Range) -> Result<(), Fault>
        ensures { number self.new ≡ number self.old };

    /// Puts the scan's next entries behind those that are there, as many as there is room for. Whether it is
    /// over.
    fn batch<R: Wait + Clock>(
        &mut self,
        rt: &R,
        index: &X,
        given: &mut Vec<Entry>,
    ) -> Result<bool, Fault>
        ensures { number self.new ≡ number self.old };

    fn leave_scan<R: Wait + Clock>(&mut self, rt: &R, index: &X) -> Result<(), Fault>
        ensures { number self.new ≡ number self.old };
}

// How many entries a bulk delete removed.
fn removed(told: Result<VacuumStats, Fault>) -> Result<u64, Fault> {
    match told {
        Ok(stats) => Ok(stats.tuples_removed),
        Err(fault) => Err(fault),
    }
}

impl<S: PageStore, T: DeadRows + Drop, J: OriginOn<S>> PlainSession<SharedIndex<S, T, J>>
    for SharedSession<J> {
    type Rows = T;

    ghost number = { λ s. number_of_seat s.seat };

    fn set_patience(&mut self, patience: Option<Duration>) {
        SharedSession::set_patience(self, patience);
    }

    fn insert<R: Wait + Clock>(
        &mut self,
        rt: &R,
        index: &SharedIndex<S, T, J>,
        entry: Entry,
    ) -> Result<u64, Fault> {
        match SharedSession::insert(self, rt, index, entry) {
            Ok(inserted) => Ok(inserted.action),
            Err(fault) => Err(fault),
        }
    }

    fn bulk_delete<R: Wait + Clock>(
        &mut self,
        rt: &R,
        index: &SharedIndex<S, T, J>,
        set: u32,
    ) -> Result<u64, Fault> {
        removed(SharedSession::bulk_delete(self, rt, index, set))
    }

    fn delete_rows<R: Wait + Clock>(
        &mut self,
        rt: &R,
        index: &SharedIndex<S, T, J>,
        set: T,
    ) -> Result<Deleted<T>, (Fault, T)> {
        match SharedSession::delete_rows(self, rt, index, set) {
            Ok(RowsDeleted { told, was }) => Ok((removed(told), was)),
            Err(NotPut { fault, set }) => Err((fault, set)),
        }
    }

    fn clean_up<R: Wait + Clock>(
        &mut self,
        rt: &R,
        index: &SharedIndex<S, T, J>,
    ) -> Result<(), Fault> {
        match SharedSession::clean_up(self, rt, index) {
            Ok(_stats) => Ok(()),
            Err(fault) => Err(fault),
        }
    }

    fn commit<R: Wait + Clock>(
        &mut self,
        rt: &R,
        index: &SharedIndex<S, T, J>,
    ) -> Result<u64, Fault> {
        SharedSession::commit(self, rt, index)
    }

    fn checkpoint<R: Wait + Clock>(
        &mut self,
        rt: &R,
        index: &SharedIndex<S, T, J>,
    ) -> Result<u64, Fault> {
        SharedSession::checkpoint(self, rt, index)
    }

    fn scan<R: Wait + Clock>(
        &mut self,
        rt: &R,
        index: &SharedIndex<S, T, J>,
        range: Range,
    ) -> Result<(), Fault> {
        SharedSession::scan(self, rt, index, range)
    }

    fn batch<R: Wait + Clock>(
        &mut self,
        rt: &R,
        index: &SharedIndex<S, T, J>,
        given: &mut Vec<Entry>,
    ) -> Result<bool, Fault> {
        SharedSession::batch(self, rt, index, given)
    }

    fn leave_scan<R: Wait + Clock>(
        &mut self,
        rt: &R,
        index: &SharedIndex<S, T, J>,
    ) -> Result<(), Fault> {
        SharedSession::leave_scan(self, rt, index)
    }
}
