//! The index.

ghost use Rattle.std.specs.Prelude.{◌≡◌, ◌<◌, IfSome, length};
ghost use Rattle.access_method.specs.Counted.{counted};
ghost use Rattle.access_method.specs.Rows.{is_row_in};
ghost use Rattle.access_method.specs.Tokens.{SeatsAgree, IsFreeSeat, IsSeatOfVacuum};
ghost use Rattle.vacuum.specs.Counts.{deleted_count, free_count};

use crate::info::IndexInfo;
use crate::rows::RowSet;
use crate::token::{OpenScan, ScanToken, Sitter};
use device::Device;
use index_model::{DeadRows, Entry, Fault, Range, RowAddr, Session, VacuumStats};
use page_action::PageStore;
use page_store::Store;
use recovery::Refused;
use redo_log::Advance;
use schedule::{checkpoint, force, same_state_fits};
use session_calls::{Answer, Calls};
use std::alloc::Global;
use std::io::Error;
use vacuum::count_deleted;
use whole_calls::{Inserted, bulk_delete, clean_up, give, give_up, insert, open};

// How many images of pages the log has room for before a step: an act takes four at most, and a force that it
// makes one more.
pub(crate) const LEAST_ROOM: u32 = 5;

/// The index of one user over a store of pages. Session 63 runs its inserts, and the bulk deletes and
/// cleanups that are run to their ends by one call. Sessions 0 to 62 run its open scans, and a bulk delete or
/// cleanup that goes on in parts, one at most. Nothing takes memory.
#[derive(Drop)]
pub struct Index<S> {
    pub(crate) store: S,
    pub(crate) calls: Calls,
    pub(crate) seats: [Option<Sitter>; 63],
    // Those of the bulk delete that goes on in parts.
    pub(crate) rows: RowSet,
    pub(crate) given: u64,
    ghost sessions: { length calls.slots.items ≡ 64 },
    ghost agree: { SeatsAgree calls.slots.items seats },
}

/// Why an index was not made, with the store as it was.
#[derive(Drop)]
pub struct IndexNotMade<S> {
    pub fault: Fault,
    pub store: S,
}

// A set of rows that is lent for a call.
#[derive(Drop)]
pub(crate) struct LentRows<'a, T> {
    pub(crate) rows: &'a T,
}

impl<T: DeadRows> DeadRows for LentRows<'_, T> {
    ghost is_in = { λ set. T.is_in set.rows.now };

    fn is_dead(&self, row: RowAddr) -> bool {
        self.rows.is_dead(row)
    }
}

// The index's own rows, or those of a bulk delete that is run to its end by one call.
#[derive(Drop)]
enum NamedRows<'a, T> {
    Own(&'a RowSet),
    Lent(&'a T),
}

impl<T: DeadRows> DeadRows for NamedRows<'_, T> {
    ghost use Rattle.access_method.specs.Indexes.{is_named_row};

    ghost is_in = { is_named_row T.is_in };

    fn is_dead(&self, row: RowAddr) -> bool {
        match self {
            NamedRows::Own(rows) => rows.is_dead(row),
            NamedRows::Lent(rows) => rows.is_dead(row),
        }
    }
}

// How many actions are told as durable.
fn count(answer: Answer) -> Result<u64, Fault>
    ensures { result ≡ counted answer }
{
    match answer {
        Answer::Forced(count) | Answer::Checkpointed(count) => Ok(count),
        Answer::Refused(fault) => Err(fault),
        _ => Err(Fault::NoSession),
    }
}

// The first seat that is free.
pub(crate) fn free_seat(seats: &[Option<Sitter>]) -> Option<usize>
    ensures free { IsFreeSeat seats.now result }
    ensures low { IfSome result (λ at. at < length seats.now) }
{
    for at in 0..seats.len() {
        if seats[at].is_none() {
            return Some(at);
        }
    }
    None
}

// The seat of the vacuum that goes on in parts.
pub(crate) fn vacuum_seat(seats: &[Option<Sitter>]) -> Option<usize>
    ensures seat { IsSeatOfVacuum seats.now result }
    ensures low { IfSome result (λ at. at < length seats.now) }
{
    for at in 0..seats.len() {
        if let Some(Sitter::Vacuum) = seats[at] {
            return Some(at);
        }
    }
    None
}

// How many blocks are deleted, and how many of these may be used again while session 63 runs no call.
fn deleted_pages<S: PageStore>(store: &S) -> (u32, u32)
    ensures deleted { result.0 ≡ deleted_count (S.state store.now)
        (length (S.state store.now).pages) }
    ensures free { result.1 ≡ free_count (S.state store.now) 63
        (length (S.state store.now).pages) }
{
    match Session::new(63) {
        Ok(session) => count_deleted(store, session),
        Err(_) => (0, 0),
    }
}

impl<S: PageStore> Index<S> {
    ghost use Rattle.std.specs.Prelude.{◌≡◌, ◌≢◌, ℕ, List, [], true, false, Option, None, Some, Result, Ok, Err, IfOk, IfErr, IsOk, OnOk, OnErr, OnSome, ◌<◌, length};
    ghost use Rattle.access_method.specs.declared.token.ScanToken.{ScanToken};
    ghost use Rattle.index_model.specs.Formats.{sizes_of};
    ghost use Rattle.vacuum.specs.Counts.{deleted_count, free_count};
    ghost use Rattle.page_action.specs.Contents.{entry_on_live_leaf};
    ghost use Rattle.page_action.specs.Room.{LogIsClosed};
    ghost use Rattle.index_model.specs.Faults.{HasCause};
    ghost use Rattle.page_action.specs.Causes.{causes_of_forced};
    ghost use Rattle.page_action.specs.States.{Continues};
    ghost use Rattle.session_calls.specs.Ops.{op_before};
    ghost use Rattle.session_calls.specs.declared.answer.Answer.TheVariants.{Begun};
    ghost use Rattle.session_calls.specs.declared.request.Request.TheVariants.{Scan as ToScan, Cleanup as ToCleanup};
    ghost use Rattle.schedule.specs.TheoremKinds.{Forces, Checkpoints};
    ghost use Rattle.schedule.specs.Sessions.{op_of};
    ghost use Rattle.schedule.specs.MomentInvariants.{IsUnused};
    ghost use Rattle.whole_calls.specs.Made.{IsMadeOf, ComesTo, InsertComesTo};
    ghost use Rattle.whole_calls.specs.Meanings.{IsSameHistory, HasBegun, EndMeans};
    ghost use Rattle.whole_calls.specs.Vacuuming.{VacuumMeans, vacuum_outcome, ResultLeavesNeeded};
    ghost use Rattle.whole_calls.specs.Giving.{SessionGivenMeans, EndsUnlessGiven, RunsIfGiven, given_outcome};
    ghost use Rattle.access_method.specs.Tokens.{seat_of};
    ghost use Rattle.access_method.specs.Indexes.{IndexFits, IndexKeeps, IndexIsRun, IndexInserts, IndexMakes, IndexIsKept, slots_with, ForEachIndexHistory, IndexStillFits, BulkDeleteRuns, SameTokens, IsNewToken, SeatBecomes, seat_with, RescanMeans, TokenAfter, InsertsOrKeeps, IsBulkDeletedOrLess, IsCleanedUp, AnswersScan, has_entry, NotOpenedFor, NotRescannedFor, cannot_begin};
    ghost use Rattle.access_method.specs.Scans.{AreTheMatches, BeginTheMatches, NextIs, NextsAre, Rests, ScanBegins};
    ghost use Rattle.index_model.specs.declared.entry.Entry.{Entry as IndexEntry};
    ghost use Rattle.index_model.specs.declared.range.Range.{Range as TheRange};
    ghost use Rattle.access_method.specs.Counted.{upkeep_outcome};
    ghost use Rattle.access_method.specs.Refusals.{causes_of_vacuum, InsertHasCause, NothingHinders, NothingIsOpen, InsertsUnhindered, GiveHasCause, GivesUnhindered};

    /// An index over the store, with no call and no open scan. Where the store's pages are in order and it
    /// has made no act, the index is fitted by the contents of its pages, no actions and no calls; over an
    /// own device it keeps them over crashes. Refused with `NoMemory` (1), with the store given back.
    pub fn new(alloc: Global, store: S) -> Result<Index<S>, IndexNotMade<S>>
        ensures store { IfOk result (λ index. index.store ≡ store) }
        ensures fits { IsUnused (S.state store) → IfOk result (λ index.
            IndexFits S.PageStore index (entry_on_live_leaf (S.state store).pages) [] []) }
        ensures keeps { IsUnused (S.state store) → S.own store → IfOk result (λ index.
            IndexKeeps S.PageStore index (entry_on_live_leaf (S.state store).pages) [] []) }
        ensures closed { IfOk result (λ index.
            (token : ScanToken) → seat_of index.seats token ≡ None) }
        ensures given_back { IfErr result (λ not_made. not_made.store ≡ store) }
        ensures fault { IfErr result (λ not_made. not_made.fault ≡ Fault.NoMemory) }
    {
        match Calls::new(alloc, 64) {
            Ok(calls) => Ok(Index {
                store,
                calls,
                seats: [None; 63],
                rows: RowSet::new(),
                given: 0,
            }),
            Err(fault) => Err(IndexNotMade { fault, store }),
        }
    }

    /// Inserts an entry: begins an insert and runs its steps to the end. Refused with `Exists` (5) where the
    /// entry is there; on a unique index with `KeyExists` (21), which names the row, where an entry of its
    /// key and another row is there; with `IndexFull` (8) where a page is full and no block is left, with
    /// `TooTall` (19) where the root is full on level 31; with `Io` (2), `Stopped` (3), and with `Blocked`
    /// (4) or `NoFrame` (10) where open scans hold what it needs; with `PageDamaged` (17) on pages that are
    /// no tree: no entry is added then. Once the entry is added, a fault that keeps a split from being
    /// finished stands in `unfinished`. Open scans stay as they are.
    pub fn aminsert(&mut self, entry: Entry) -> Result<Inserted, Fault>
        ensures steps { Continues S.follows self.old.store self.new.store }
        // Whatever fitted before, something fits after.
        ensures fits { ForEachIndexHistory S.PageStore self.old self.new
            (IndexStillFits S.PageStore self.new) }
        ensures runs { IndexInserts S.PageStore 63 entry result self.old self.new }
        // Whatever the pages are.
        ensures made { IndexMakes S.PageStore 63 (InsertComesTo result) self.old self.new }
        ensures inserts { ForEachIndexHistory S.PageStore self.old self.new
            (λ start history calls. InsertsOrKeeps S.PageStore entry result self.old.store
            self.new.store) }
        // It never answers `LogFull`, `NoSession`, `SessionBusy` nor `VacuumRunning`.
        ensures cause { ForEachIndexHistory S.PageStore self.old self.new
            (λ start history calls. InsertHasCause S.PageStore entry result self.old self.new.store) }
        ensures alone { ForEachIndexHistory S.PageStore self.old self.new
            (λ start history calls. NothingHinders S.PageStore 63 self.old self.new.store
            → InsertsUnhindered S.PageStore entry result self.old.store self.new.store) }
        ensures tokens { SameTokens self.old self.new }
    {
        insert(
            &mut self.store,
            &mut self.calls,
            &[LentRows { rows: &self.rows }],
            63,
            entry,
            LEAST_ROOM,
        )
    }

    /// Deletes every entry whose row is in the set, and answers statistics: what it removed, how many entries
    /// are left, how many pages are in use and deleted then, and how many of these may be used again. Open
    /// scans stay as they are. Refused with `VacuumRunning` (11) where one goes on in parts, with `Blocked`
    /// (4) where an open scan stands on a leaf, with `Io` (2), `Stopped` (3) and `NoFrame` (10), and with
    /// `PageDamaged` (17) on pages that are no tree: what it has removed stays removed, and no other entry is
    /// gone.
    pub fn ambulkdelete<T: DeadRows>(&mut self, dead: &T) -> Result<VacuumStats, Fault>
        ensures steps { Continues S.follows self.old.store self.new.store }
        // Whatever fitted before, something fits after.
        ensures fits { ForEachIndexHistory S.PageStore self.old self.new
            (IndexStillFits S.PageStore self.new) }
        ensures deletions { ForEachIndexHistory S.PageStore self.old self.new
            (BulkDeleteRuns S.PageStore (T.is_in dead.now) result self.old self.new) }
        // Whatever the pages are.
        ensures made { IsMadeOf S.PageStore 63 5 (ComesTo (vacuum_outcome result))
            (slots_with (T.is_in dead.now) self.old) (slots_with (T.is_in dead.now) self.new) }
        ensures deletes { ForEachIndexHistory S.PageStore self.old self.new
            (λ start history calls. IsBulkDeletedOrLess S.PageStore (T.is_in dead.now) result
            self.old.store self.new.store) }
        // It never answers `LogFull`, `NoSession` nor `SessionBusy`.
        ensures cause { ForEachIndexHistory S.PageStore self.old self.new (λ start history calls.
            IfErr result (HasCause (causes_of_vacuum S.PageStore 63 self.old self.new.store))) }
        ensures finishes { ForEachIndexHistory S.PageStore self.old self.new (λ start history calls.
            NothingHinders S.PageStore 63 self.old self.new.store → IsOk result) }
        ensures tokens { SameTokens self.old self.new }
    {
        bulk_delete(
            &mut self.store,
            &mut self.calls,
            &[NamedRows::Own(&self.rows), NamedRows::Lent(dead)],
            63,
            1,
            LEAST_ROOM,
        )
    }

    /// Deletes empty leaves and counts the entries: begins a cleanup and runs its steps to the end. The
    /// contents stay, whatever it answers, and so do open scans; a leaf on which one stands is passed. Where
    /// it answers, no half-dead page is left, `num_index_tuples` is the number of entries, and of the pages
    /// that are deleted then (`pages_deleted`) it tells how many it deleted and how many may be used again.
    /// Refused with `VacuumRunning` (11) where one goes on in parts, with `Io` (2) and `Stopped` (3), with
    /// `Blocked` (4) or `NoFrame` (10) where open scans hold what it needs, and with `PageDamaged` (17) on
    /// pages that are no tree.
    pub fn amvacuumcleanup(&mut self) -> Result<VacuumStats, Fault>
        ensures steps { Continues S.follows self.old.store self.new.store }
        // Whatever fitted before, something fits after.
        ensures fits { ForEachIndexHistory S.PageStore self.old self.new
            (IndexStillFits S.PageStore self.new) }
        ensures runs { IndexIsRun S.PageStore 63 (VacuumMeans 63 ToCleanup result)
            (vacuum_outcome result) self.old self.new }
        // Whatever the pages are.
        ensures made { IndexMakes S.PageStore 63 (ComesTo (vacuum_outcome result)) self.old self.new }
        ensures cleans { ForEachIndexHistory S.PageStore self.old self.new
            (λ start history calls. IsCleanedUp S.PageStore result self.old.store
            self.new.store) }
        // The empty leaves that are left then are the rightmost one, those with an incomplete split, those
        // right after one with an incomplete split, and last children of their parents.
        ensures spares { ForEachIndexHistory S.PageStore self.old self.new
            (λ start history calls. NothingIsOpen S.PageStore self.old
            → ResultLeavesNeeded (S.state self.new.store) result) }
        // It never answers `LogFull`, `NoSession` nor `SessionBusy`.
        ensures cause { ForEachIndexHistory S.PageStore self.old self.new (λ start history calls.
            IfErr result (HasCause (causes_of_vacuum S.PageStore 63 self.old self.new.store))) }
        ensures finishes { ForEachIndexHistory S.PageStore self.old self.new (λ start history calls.
            NothingHinders S.PageStore 63 self.old self.new.store → IsOk result) }
        ensures tokens { SameTokens self.old self.new }
    {
        clean_up(
            &mut self.store,
            &mut self.calls,
            &[LentRows { rows: &self.rows }],
            63,
            LEAST_ROOM,
        )
    }

    /// Makes all actions durable and answers their number. Refused with `Stopped` (3) and `Io` (2).
    pub fn commit(&mut self) -> Result<u64, Fault>
        ensures steps { Continues S.follows self.old.store self.new.store }
        // Whatever fitted before, something fits after.
        ensures fits { ForEachIndexHistory S.PageStore self.old self.new
            (IndexStillFits S.PageStore self.new) }
        ensures runs { IndexIsRun S.PageStore 0 IsSameHistory
            (upkeep_outcome Forces result) self.old self.new }
        // Whatever the pages are.
        ensures made { IndexIsKept S.PageStore Forces result self.old self.new }
        ensures number { IfOk result (λ n. n ≡ (S.state self.old.store).acts) }
        ensures durable { OnOk result ((S.backing self.new.store).durable
            ≡ (S.state self.old.store).acts) }
        ensures cause { IfErr result
            (HasCause (causes_of_forced (S.backing self.old.store) (S.backing self.new.store))) }
        ensures tokens { SameTokens self.old self.new }
    {
        count(force(&mut self.store))
    }

    /// Makes all actions durable, writes each changed page to its place and closes the log; answers the
    /// number of actions. Refused with `Stopped` (3) and `Io` (2).
    pub fn checkpoint(&mut self) -> Result<u64, Fault>
        ensures steps { Continues S.follows self.old.store self.new.store }
        // Whatever fitted before, something fits after.
        ensures fits { ForEachIndexHistory S.PageStore self.old self.new
            (IndexStillFits S.PageStore self.new) }
        ensures runs { IndexIsRun S.PageStore 0 IsSameHistory
            (upkeep_outcome Checkpoints result) self.old self.new }
        // Whatever the pages are.
        ensures made { IndexIsKept S.PageStore Checkpoints result self.old self.new }
        ensures number { IfOk result (λ n. n ≡ (S.state self.old.store).acts) }
        ensures durable { OnOk result ((S.backing self.new.store).durable
            ≡ (S.state self.old.store).acts) }
        ensures alive { OnOk result ((S.backing self.new.store).stopped ≡ false) }
        ensures room { OnOk result
            (LogIsClosed (S.state self.old.store).format (S.backing self.new.store)) }
        ensures cause { IfErr result
            (HasCause (causes_of_forced (S.backing self.old.store) (S.backing self.new.store))) }
        ensures tokens { SameTokens self.old self.new }
    {
        count(checkpoint(&mut self.store))
    }

    /// What the index is: its sizes, its pages, and whether it has stopped. It makes no call of the device,
    /// and goes over the numbers of the blocks in use.
    pub fn info(&self) -> IndexInfo
        ensures limits { result.limits ≡ sizes_of (S.state self.now.store).format }
        ensures used { result.pages_used ≡ length (S.state self.now.store).pages }
        ensures deleted { result.pages_deleted ≡ deleted_count (S.state self.now.store)
            (length (S.state self.now.store).pages) }
        // Session 63 runs no call now.
        ensures free { result.pages_free ≡ free_count (S.state self.now.store) 63
            (length (S.state self.now.store).pages) }
        ensures stopped { result.is_stopped ≡ (S.backing self.now.store).stopped }
    {
        let (pages_deleted, pages_free) = deleted_pages(&self.store);
        IndexInfo {
            limits: self.store.limits(),
            pages_used: self.store.used(),
            pages_deleted,
            pages_free,
            is_stopped: self.store.is_stopped(),
        }
    }

    // The seat of an open token.
    fn find(&self, token: ScanToken) -> Option<OpenScan>
        ensures value { result ≡ seat_of self.now.seats token }
        ensures low { OnSome result (token.session < 63) }
    {
        let at = token.session as usize;
        if at >= 63 {
            return None;
        }
        match self.seats[at] {
            Some(Sitter::Scan(seat)) if seat.number == token.number => Some(seat),
            _ => None,
        }
    }

    /// The next entry of an open scan, in ascending order, or None where it has given all. Refused with
    /// `NoSession` (12) where the token is not open, or a fault was answered since the scan was begun; with
    /// `Io` (2) and `Stopped` (3), with `Blocked` (4) or `NoFrame` (10), and with `PageDamaged` (17) on pages
    /// that are no tree: the scan is over then. Once it has answered None it answers None again.
    pub fn amgettuple(&mut self, token: ScanToken) -> Result<Option<Entry>, Fault>
        ensures steps { Continues S.follows self.old.store self.new.store }
        // Whatever fitted before, something fits after.
        ensures fits { ForEachIndexHistory S.PageStore self.old self.new
            (IndexStillFits S.PageStore self.new) }
        ensures runs { seat_of self.old.seats token ≡ seat_with token false
            → op_of self.old.calls token.session ≢ None
            → IndexIsRun S.PageStore token.session (SessionGivenMeans token.session result)
            (given_outcome result) self.old self.new }
        // Whatever the pages are: so it answers None only after a step that answered `Done`.
        ensures made { seat_of self.old.seats token ≡ seat_with token false
            → op_of self.old.calls token.session ≢ None
            → IndexMakes S.PageStore token.session (ComesTo (given_outcome result)) self.old self.new }
        ensures answers { ForEachIndexHistory S.PageStore self.old self.new
            (AnswersScan token.session result) }
        // It never answers `LogFull`.
        ensures cause { seat_of self.old.seats token ≡ seat_with token false
            → ForEachIndexHistory S.PageStore self.old self.new
            (GiveHasCause S.PageStore token.session result self.old self.new.store) }
        ensures gives { seat_of self.old.seats token ≡ seat_with token false
            → ForEachIndexHistory S.PageStore self.old self.new
            (GivesUnhindered S.PageStore token.session result self.old self.new.store) }
        ensures closed { seat_of self.old.seats token ≡ None
            → (result ≡ Err Fault.NoSession) × (self.new ≡ self.old) }
        ensures refused { seat_of self.old.seats token ≡ seat_with token true
            → (result ≡ Err Fault.NoSession) × (self.new ≡ self.old) }
        ensures over { seat_of self.old.seats token ≡ seat_with token false
            → op_of self.old.calls token.session ≡ None
            → (result ≡ Ok None) × (self.new ≡ self.old) }
        ensures ends { seat_of self.old.seats token ≡ seat_with token false
            → EndsUnlessGiven result (op_of self.new.calls token.session) }
        ensures lasts { RunsIfGiven result (op_of self.old.calls token.session)
            (op_of self.new.calls token.session) }
        ensures tokens { seat_of self.old.seats token ≡ seat_with token false
            → TokenAfter token result self.old self.new }
    {
        let Some(seat) = self.find(token) else {
            return Err(Fault::NoSession);
        };
        if seat.is_refused {
            return Err(Fault::NoSession);
        }
        if !self.calls.is_running(token.session) {
            return Ok(None);
        }
        match give(
            &mut self.store,
            &mut self.calls,
            &[LentRows { rows: &self.rows }],
            token.session,
            LEAST_ROOM,
        ) {
            Ok(given) => Ok(given),
            Err(fault) => {
                self.seats[token.session as usize] = Some(Sitter::Scan(OpenScan {
                    number: token.number,
                    is_refused: true,
                }));
                Err(fault)
            }
        }
    }

    /// Closes an open scan: its call is given up, and the token is not open any more. Refused with
    /// `NoSession` where the token is not open. The contents stay.
    pub fn amendscan(&mut self, token: ScanToken) -> Result<(), Fault>
        ensures steps { Continues S.follows self.old.store self.new.store }
        // Whatever fitted before, something fits after.
        ensures fits { ForEachIndexHistory S.PageStore self.old self.new
            (IndexStillFits S.PageStore self.new) }
        ensures runs { OnOk result (IndexIsRun S.PageStore token.session
            (EndMeans token.session) None self.old self.new) }
        ensures rests { OnOk result (ForEachIndexHistory S.PageStore self.old self.new
            (Rests S.PageStore self.old self.new)) }
        // Whatever the pages are.
        ensures made { OnOk result
            (IndexMakes S.PageStore token.session (ComesTo None) self.old self.new) }
        ensures closed { seat_of self.old.seats token ≡ None
            → (result ≡ Err Fault.NoSession) × (self.new ≡ self.old) }
        ensures refused { IfErr result (λ fault. fault ≡ Fault.NoSession) }
        ensures open { OnErr result (seat_of self.old.seats token ≡ None) }
        ensures tokens { OnOk result (SeatBecomes token None self.old self.new) }
    {
        let Some(_seat) = self.find(token) else {
            return Err(Fault::NoSession);
        };
        give_up(
            &mut self.store,
            &mut self.calls,
            &[LentRows { rows: &self.rows }],
            token.session,
        );
        self.seats[token.session as usize] = None;
        Ok(())
    }

    // Whether no scan can begin: the log has failed, or a counter is at its end.
    pub(crate) fn is_at_end(&self) -> bool
        ensures value { result ≡ cannot_begin S.PageStore self.now }
        ensures given { result ≡ false → self.now.given < 18446744073709551615 }
    {
        self.store.is_stopped() || self.store.begun() == u64::MAX || self.given == u64::MAX
    }

    /// Opens a scan of the entries of a range, and answers its token, a new one. Refused with `Stopped` (3)
    /// where the log has failed or a counter is at its end, and then with `NoSession` (12) where 63 scans are
    /// open: nothing is changed.
    pub fn ambeginscan(&mut self, range: Range) -> Result<ScanToken, Fault>
        ensures steps { Continues S.follows self.old.store self.new.store }
        // Whatever fitted before, something fits after.
        ensures fits { ForEachIndexHistory S.PageStore self.old self.new
            (IndexStillFits S.PageStore self.new) }
        ensures runs { IfOk result (λ token.
            IndexIsRun S.PageStore token.session (HasBegun token.session (ToScan range)) (Some Begun) self.old self.new) }
        // Whatever the pages are.
        ensures made { IfOk result (λ token.
            IndexMakes S.PageStore token.session (ComesTo (Some Begun)) self.old self.new) }
        // Whatever the pages are, its session runs the scan then.
        ensures begins { IfOk result (λ token.
            op_of self.new.calls token.session ≡ Some (op_before token.session (ToScan range))) }
        ensures tokens { IfOk result (IsNewToken self.old self.new) }
        // Where no scan can begin it is refused with `Stopped`, whatever else is so.
        ensures stopped { cannot_begin S.PageStore self.old ≡ true → result ≡ Err Fault.Stopped }
        ensures refused { OnErr result (self.new ≡ self.old) }
        ensures cause { IfErr result (NotOpenedFor S.PageStore self.old) }
    {
        if self.is_at_end() {
            return Err(Fault::Stopped);
        }
        let Some(at) = free_seat(&self.seats) else {
            return Err(Fault::NoSession);
        };
        let session = at as u32;
        open(
            &mut self.store,
            &mut self.calls,
            &[LentRows { rows: &self.rows }],
            session,
            range,
        )?;
        let number = self.given;
        self.seats[at] = Some(Sitter::Scan(OpenScan {
            number,
            is_refused: false,
        }));
        self.given += 1;
        Ok(ScanToken { number, session })
    }

    /// Begins a scan of a range anew under an open token; the old call is given up. Refused with `NoSession`
    /// (12) where the token is not open, then with `Stopped` (3) where the log has failed or a counter is at
    /// its end: nothing is changed.
    pub fn amrescan(&mut self, token: ScanToken, range: Range) -> Result<(), Fault>
        ensures steps { Continues S.follows self.old.store self.new.store }
        // Whatever fitted before, something fits after.
        ensures fits { ForEachIndexHistory S.PageStore self.old self.new
            (IndexStillFits S.PageStore self.new) }
        ensures runs { OnOk result
            (IndexIsRun S.PageStore token.session (RescanMeans token.session range)
            (Some Begun) self.old self.new) }
        // Whatever the pages are.
        ensures made { OnOk result
            (IndexMakes S.PageStore token.session (ComesTo (Some Begun)) self.old self.new) }
        // Whatever the pages are, its session runs the scan then.
        ensures begins { OnOk result (op_of self.new.calls token.session
            ≡ Some (op_before token.session (ToScan range))) }
        ensures tokens { OnOk result (SeatBecomes token (seat_with token false) self.old self.new) }
        ensures closed { seat_of self.old.seats token ≡ None
            → (result ≡ Err Fault.NoSession) × (self.new ≡ self.old) }
        // An open token for which no scan can begin is refused with `Stopped`, whatever else is so.
        ensures stopped { seat_of self.old.seats token ≢ None
            → cannot_begin S.PageStore self.old ≡ true → result ≡ Err Fault.Stopped }
        ensures refused { OnErr result (self.new ≡ self.old) }
        ensures cause { IfErr result (NotRescannedFor S.PageStore self.old token) }
    {
        let Some(_known) = self.find(token) else {
            return Err(Fault::NoSession);
        };
        if self.is_at_end() {
            return Err(Fault::Stopped);
        }
        give_up(
            &mut self.store,
            &mut self.calls,
            &[LentRows { rows: &self.rows }],
            token.session,
        );
        open(
            &mut self.store,
            &mut self.calls,
            &[LentRows { rows: &self.rows }],
            token.session,
            range,
        )?;
        self.seats[token.session as usize] = Some(Sitter::Scan(OpenScan {
            number: token.number,
            is_refused: false,
        }));
        Ok(())
    }

    /// Does nothing: what a scan gives, where between its beginning and now nothing was done but asking for
    /// its next entry. These are the first of the sorted matches, of what was there when it was begun; and
    /// all of them, once it has answered None. The index rests: its contents are those before the scan was
    /// begun, whatever the last request answered.
    pub fn scan_law(&self)
        ensures first { (session : ℕ) (range : TheRange) (before begun : Index S) (given : List IndexEntry)
            → ScanBegins S.PageStore session range before begun
            → NextsAre S.PageStore session given begun self.now
            → ForEachIndexHistory S.PageStore before self.now (λ start history calls.
            BeginTheMatches (has_entry S.PageStore before.store) range given) }
        ensures all { (session : ℕ) (range : TheRange) (before begun last : Index S) (given : List IndexEntry)
            → ScanBegins S.PageStore session range before begun
            → NextsAre S.PageStore session given begun last
            → NextIs S.PageStore session (Ok None) last self.now
            → ForEachIndexHistory S.PageStore before self.now (λ start history calls.
            AreTheMatches (has_entry S.PageStore before.store) range given) }
        ensures rests { (session : ℕ) (range : TheRange) (before begun : Index S) (given : List IndexEntry)
            → ScanBegins S.PageStore session range before begun
            → NextsAre S.PageStore session given begun self.now
            → ForEachIndexHistory S.PageStore before self.now (Rests S.PageStore before self.now) }
        ensures rests_then { (session : ℕ) (range : TheRange) (before begun last : Index S)
            (given : List IndexEntry) (answer : Result (Option IndexEntry) Fault)
            → ScanBegins S.PageStore session range before begun
            → NextsAre S.PageStore session given begun last
            → NextIs S.PageStore session answer last self.now
            → ForEachIndexHistory S.PageStore before self.now (Rests S.PageStore before self.now) }
    {}
}

impl<D: Device> Index<Store<D>> {
    ghost use Rattle.std.specs.Prelude.{◌≡◌, ℕ, Bool, List, length, true, IsTrue, IfOk, IfErr, OnOk, OnErr, MatchResult};
    ghost use Rattle.index_model.specs.Faults.{HasCause};
    ghost use Rattle.page_action.specs.Causes.{causes_of_forced};
    ghost use Rattle.page_action.specs.States.{Continues};
    ghost use Rattle.page_store.specs.Quiet.{IsAdvanced};
    ghost use Rattle.device.specs.Moments.{AtEachMoment, MayHaveCrashedTo};
    ghost use Rattle.index_model.specs.Actions.{Action};
    ghost use Rattle.index_model.specs.Calls.{Call};
    ghost use Rattle.index_model.specs.declared.entry.Entry.{Entry};
    ghost use Rattle.index_model.specs.declared.format.Format.{Format};
    ghost use Rattle.page_codec.specs.declared.page.Page.{Page};
    ghost use Rattle.page_store.specs.Logged.{backing_of};
    ghost use Rattle.page_store.specs.Restart.{CrashesToPages};
    ghost use Rattle.page_store.specs.Stores.{state_of, held_by, device_of, IsOwnStore};
    ghost use Rattle.page_store.specs.declared.store.Store.{Store};
    ghost use Rattle.recovery.specs.Calls.{IsIoOr};
    ghost use Rattle.recovery.specs.Index.{HasIndex};
    ghost use Rattle.recovery.specs.Opening.{AreFrames, IsNoMemoryOrIo, IsRefusal};
    ghost use Rattle.tree_acts.specs.TheoremKeys.{IsTreeFor};
    ghost use Rattle.world.specs.Reopening.{IsIndexAfterPrefix};
    ghost use Rattle.access_method.specs.Files.{IsOpenFault};
    ghost use Rattle.access_method.specs.Indexes.{IndexFits, IndexKeeps, IndexBegins, IndexStays, SameTokens, index_device};

    /// Opens the index on the device, after any crash, for so many pages in memory at once (16 to 1,024).
    /// Refused as `open` of `recovery` is, with the device given back. It may be called again after any
    /// refusal, and after a crash at any moment.
    pub fn open(alloc: Global, device: D, frames: u32) -> Result<Index<Store<D>>, Refused<D>>
        // An index whose pages are a B-link tree, of a unique one keyed, is opened with them, or refused for
        // want of memory or of the device.
        ensures begins { IsTrue (D.is_honest (index_device D.Device result)) → AreFrames frames
            → (format : Format) (pages : List Page)
            → HasIndex format pages (D.trace device).now.seen → IsTreeFor format pages
            → MatchResult result (IndexBegins D.Device ⟦<Store<D> as PageStore>⟧ format pages)
            (λ refused. IsNoMemoryOrIo refused.fault) }
        // It has as many frames as were asked for, 16 or more.
        ensures frames { IfOk result (λ index. (state_of D.Device index.store).frames ≡ frames) }
        ensures range { OnOk result (AreFrames frames) }
        // A crash at each moment since leaves the same index, whatever was answered.
        ensures moments { IsTrue (D.is_honest (index_device D.Device result))
            → (format : Format) (pages : List Page)
            → HasIndex format pages (D.trace device).now.seen
            → AtEachMoment (CrashesToPages format pages) (D.trace device)
            (D.trace (index_device D.Device result)) }
        ensures len { length (D.trace (index_device D.Device result)).now.seen
            ≡ length (D.trace device).now.seen }
        ensures cause { IfErr result (λ refused.
            IsIoOr (IsRefusal (D.is_honest refused.device) frames (D.trace device) (D.trace refused.device))
            (D.failures device) (D.failures refused.device) refused.fault) }
        ensures fault { IfErr result (λ refused. IsOpenFault refused.fault) }
    {
        match recovery::open(alloc, device, frames) {
            Ok(store) => match Index::new(alloc, store) {
                Ok(index) => Ok(index),
                Err(IndexNotMade { fault, store }) => Err(Refused {
                    fault,
                    device: store.into_device(),
                }),
            },
            Err(refused) => Err(refused),
        }
    }

    /// Does nothing: what every crash leaves, at any moment between an earlier store of the index and now. It
    /// is an index that can be opened, with the contents after a prefix of the history, and all that was
    /// durable at that earlier moment.
    pub fn crash_law(&self)
        ensures { (first : Store D D.Device)
            → IsOwnStore D.Device first → ⟦<Store<D> as PageStore>⟧.follows first self.now.store
            → (start : Entry → Bool) (history : List Action) (calls : List Call)
            → IndexFits ⟦<Store<D> as PageStore>⟧ self.now start history calls
            → IndexKeeps ⟦<Store<D> as PageStore>⟧ self.now start history calls
            → (image : List ℕ) → MayHaveCrashedTo (held_by D.Device first).trace
            (held_by D.Device self.now.store).trace image
            → IsIndexAfterPrefix (state_of D.Device self.now.store).format start history
            (backing_of (held_by D.Device first)).durable image }
    {}

    /// Does the next part of a commit but for its last sync: writes what waits in the log, or syncs that and
    /// opens its gate. A sync of the device between two parts (`device::Syncer`) makes the next one fast, and
    /// so the commit at their end, which alone tells what is durable. So readers need not wait for the disk.
    /// If an action is logged between two parts, what waits is written again.
    ///
    /// Contents, calls and open scans stay as they are, and so does what is durable. Refused with `Stopped`
    /// (3) and `Io` (2).
    pub fn advance_commit(&mut self) -> Result<Advance, Fault>
        ensures steps { Continues ⟦<Store<D> as PageStore>⟧.follows self.old.store self.new.store }
        ensures stays { IndexStays ⟦<Store<D> as PageStore>⟧ self.old self.new }
        ensures kept { IsAdvanced (backing_of (held_by D.Device self.old.store))
            (backing_of (held_by D.Device self.new.store)) }
        ensures failed { OnErr result
            ((backing_of (held_by D.Device self.new.store)).stopped ≡ true) }
        ensures cause { IfErr result (HasCause (causes_of_forced
            (backing_of (held_by D.Device self.old.store))
            (backing_of (held_by D.Device self.new.store)))) }
        ensures tokens { SameTokens self.old self.new }
    {
        same_state_fits::<Store<D>>();
        self.store.advance()
    }

    /// What the system said of the last call of the device that failed, if the device is of a system. No
    /// clause tells of it.
    pub fn error(&self) -> Option<Error> {
        self.store.error()
    }

    /// The device below.
    pub fn into_device(self) -> D
        ensures { result ≡ device_of D.Device self.store }
    {
        let Index { store, .. } = self;
        store.into_device()
    }
}
