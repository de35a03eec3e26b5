//! How a session's call begins.

ghost use Rattle.std.specs.Prelude.{◌≡◌, ◌<◌, ◌≤◌, true, false, Bool, List, ℕ, OnOk, OnErr, IfErr, Err, Some, length};
ghost use Rattle.index_model.specs.Actions.{Action};
ghost use Rattle.index_model.specs.Faults.{HasCause};
ghost use Rattle.index_model.specs.declared.entry.Entry.{Entry};
ghost use Rattle.page_action.specs.States.{Continues};
ghost use Rattle.session_calls.specs.Due.{HasSteps};
ghost use Rattle.session_calls.specs.TheoremCalls.{DeadSets};
ghost use Rattle.session_calls.specs.Ops.{op_before, asks_bulk_delete, no_call_begins, causes_of_requesting};
ghost use Rattle.session_calls.specs.Sessions.{Matches, IsIdle, BeginsBy, SessionBegins, after_request};
ghost use Rattle.session_calls.specs.declared.request.Request.TheVariants.{Insert as ToInsert, Scan as ToScan, Bulk as ToBulk, Cleanup as ToCleanup};

use crate::answer::Answer;
use crate::op::Op;
use crate::request::Request;
use crate::slot::Slot;
use index_model::{Entry, Fault, Range, Session};
use insert_split::InsertOp;
use page_action::PageStore;
use page_delete::CleanupOp;
use scan::ScanOp;
use vacuum::BulkDeleteOp;

/// Whether no call begins: the log failed before, or the count of calls begun is at its end.
pub(crate) fn no_call_begins<S: PageStore>(store: &S) -> bool
    ensures { result ≡ no_call_begins (S.state store.now) (S.backing store.now) }
{
    store.is_stopped() || store.begun() == u64::MAX
}

/// Begins a call of a session. `excluded` tells that it is a bulk delete or a cleanup, and a session runs
/// one. Refused with `Stopped` (3) if no call begins; with `SessionBusy` (13) if the session has a
/// call; with `VacuumRunning` (11) if it is excluded: nothing is changed then.
///
/// An insert that runs alone, into a leaf with room, takes three steps more than the root's level. The first
/// entries of a scan that runs alone are ready after two steps more than that level.
pub(crate) fn begin<S: PageStore>(
    store: &mut S,
    session: Session,
    request: Request,
    excluded: bool,
    slot: &mut Slot,
) -> Answer
    ensures steps { Continues S.follows store.old store.new }
    ensures backing { S.backing store.new ≡ S.backing store.old }
    ensures by { BeginsBy (S.state store.old) (S.backing store.old)
        (S.state store.new) session request excluded slot.old slot.new result }
    ensures stopped { no_call_begins (S.state store.old) (S.backing store.old) ≡ true
        → result ≡ Answer.Refused Fault.Stopped }
    ensures begins { result ≡ Answer.Begun → (sets : DeadSets) (start : Entry → Bool)
        (history : List Action) (number : ℕ)
        → Matches (S.state store.old) start history → IsIdle (S.state store.old) session
        → SessionBegins (S.state store.old) (S.state store.new) sets start history number session
        request slot.new }
    ensures counts { result ≡ Answer.Begun → HasSteps (S.state store.old)
        (S.state store.new) request slot.new }
{
    if let Err(fault) = start(
        store,
        session,
        slot.is_busy(),
        excluded,
        asks_bulk_delete(&request),
    ) {
        return Answer::Refused(fault);
    }
    fill(&mut slot.op, session, request);
    slot.is_running = true;
    Answer::Begun
}

// Whether it is a request of a bulk delete, which needs a cycle number.
fn asks_bulk_delete(request: &Request) -> bool
    ensures { result ≡ asks_bulk_delete request.now }
{
    matches!(request, Request::Bulk(_))
}

// Puts the call that a session asks for into the slot.
fn fill(slot: &mut Option<Op>, session: Session, request: Request)
    ensures { slot.new ≡ Some (op_before session request) }
{
    match request {
        Request::Insert(entry) => fill_insert(slot, session, entry),
        Request::Scan(range) => fill_scan(slot, session, range),
        Request::Bulk(set) => fill_bulk(slot, session, set),
        Request::Cleanup => fill_cleanup(slot, session),
    }
}

// In the room of the last call, if that was an insert.
fn fill_insert(slot: &mut Option<Op>, session: Session, entry: Entry)
    ensures { slot.new ≡ Some (op_before session (ToInsert entry)) }
{
    match slot {
        Some(Op::Insert(op)) => op.begin_again(session, entry),
        _ => put_insert(slot, session, entry),
    }
}

// Few inserts begin after something else ran: the others are spared the room for a whole call.
#[inline(never)]
fn put_insert(slot: &mut Option<Op>, session: Session, entry: Entry)
    ensures { slot.new ≡ Some (op_before session (ToInsert entry)) }
{
    *slot = Some(Op::Insert(InsertOp::new(session, entry)));
}

// A scan takes more room than an insert, which is spared it.
#[inline(never)]
fn fill_scan(slot: &mut Option<Op>, session: Session, range: Range)
    ensures { slot.new ≡ Some (op_before session (ToScan range)) }
{
    *slot = Some(Op::Scan(ScanOp::new(session, range)));
}

fn fill_bulk(slot: &mut Option<Op>, session: Session, set: u32)
    ensures { slot.new ≡ Some (op_before session (ToBulk set)) }
{
    *slot = Some(Op::Bulk {
        set,
        op: BulkDeleteOp::new(session),
    });
}

fn fill_cleanup(slot: &mut Option<Op>, session: Session)
    ensures { slot.new ≡ Some (op_before session ToCleanup) }
{
    *slot = Some(Op::Cleanup(CleanupOp::new(session)));
}

// The start number of a call that begins, and the cycle number of a bulk delete.
fn start<S: PageStore>(
    store: &mut S,
    session: Session,
    busy: bool,
    excluded: bool,
    is_bulk: bool,
) -> Result<(), Fault>
    ensures steps { Continues S.follows store.old store.new }
    ensures backing { S.backing store.new ≡ S.backing store.old }
    ensures free { OnOk result (busy ≡ false) }
    ensures alone { OnOk result (excluded ≡ false) }
    ensures done { OnOk result (S.state store.new
        ≡ after_request is_bulk session (S.state store.old)) }
    ensures low { session < 64 }
    ensures format { (S.state store.old).format.pages ≤ 65536 }
    ensures few { length (S.state store.old).pages ≤ 65536 }
    ensures stopped { no_call_begins (S.state store.old) (S.backing store.old) ≡ true
        → result ≡ Err Fault.Stopped }
    ensures refused { OnErr result (S.state store.new ≡ S.state store.old) }
    ensures cause { IfErr result
        (HasCause (causes_of_requesting excluded (S.state store.old) (S.backing store.old) busy)) }
{
    let _number = session.number();
    let _limits = store.limits();
    if no_call_begins(store) {
        return Err(Fault::Stopped);
    }
    if busy {
        return Err(Fault::SessionBusy);
    }
    if excluded {
        return Err(Fault::VacuumRunning);
    }
    store.begin(session)?;
    if is_bulk {
        store.start_cycle();
    }
    Ok(())
}
