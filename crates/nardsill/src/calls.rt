//! The calls of an open index.

ghost use Rattle.std.specs.Prelude.{◌≡◌, ◌⊎◌, ◌≢◌, None, Ok, Err, IfErr, IfOk, OnOk, false, true};
ghost use Rattle.page_action.specs.States.{Continues};
ghost use Rattle.schedule.specs.TheoremKinds.{Forces, Checkpoints};
ghost use Rattle.nardsill.specs.Asking.{SpellsNoEntry, SpellsNoRange};
ghost use Rattle.nardsill.specs.Serving.{Advances, AnswersSync, BeginsCleanup, BeginsDelete, BeginsScan, BeginsAgain, CleansIndex, ClosesHandle, Deletes, EndsVacuum, GoesOn, Inserts, IsMisspelled, IsServed, IsUnknown, MakesDurable, Names, ServesCall, AnswersNothing};
ghost use Rattle.nardsill.specs.Meanings.{AnswersFault, Tells, AnswersPartOfCommit, AnswersDurable, AnswersInserted, AnswersPart, SpellsStats, AnswersToken};

use crate::answer::{CallAnswer, DONE, counted, refused, unfinished};
use crate::ask::Ask;
use crate::handle::Handle;
use access_method::{Index, RowSet, ScanToken};
use device::{Device, FileDevice, Syncer, Unknown};
use index_model::{Fault, VacuumStats};
use page_action::PageStore;
use page_store::Store;
use redo_log::Advance;
use std::alloc::Global;
use std::mem;
use whole_calls::Inserted;

/// Does what is asked, whatever it is.
pub fn serve(handle: &mut Handle, ask: Ask) -> CallAnswer
    ensures { IsServed ⟦<Store<FileDevice<Unknown>> as PageStore>⟧ ask result
        handle.old.index handle.new.index handle.old.dead handle.new.dead
        handle.old.spent handle.new.spent }
{
    if ask.what == 10 {
        *handle = Handle::new(handle.alloc);
        return DONE;
    }
    if ask.what == 16 {
        return sync(&handle.syncer);
    }
    if ask.what == 17 {
        handle.spent.forget(ask.block);
        return DONE;
    }
    let alloc = handle.alloc;
    match &mut handle.index {
        None => refused(Fault::NoSession),
        Some(index) => call(alloc, index, &mut handle.dead, &mut handle.spent, &ask),
    }
}

// Syncs the file that another handle's index writes.
fn sync(syncer: &Option<Syncer>) -> CallAnswer
    ensures { AnswersSync result }
{
    match syncer {
        None => refused(Fault::NoSession),
        Some(syncer) => match syncer.sync() {
            Ok(()) => DONE,
            Err(_) => refused(Fault::Io),
        },
    }
}

// A call of an index that is open.
fn call<D: Device>(
    alloc: Global,
    index: &mut Index<Store<D>>,
    dead: &mut RowSet,
    spent: &mut RowSet,
    ask: &Ask,
) -> CallAnswer
    ensures { ServesCall ⟦<Store<D> as PageStore>⟧ ask.now result
        index.old index.new dead.old dead.new spent.old spent.new }
{
    match ask.what {
        1 => insert(index, ask),
        2 => begin(index, ask),
        3 => again(index, ask),
        4 => close(index, ask),
        5 => name(alloc, dead, ask),
        6 => delete(index, dead),
        7 => clean_up(index),
        8 => commit(index),
        9 => checkpoint(index),
        11 => begin_delete(index, dead),
        12 => begin_clean_up(index),
        13 => go_on(index, ask),
        14 => end_vacuum(index, spent),
        15 => advance(index),
        _ => refused(Fault::NoSession),
    }
}

// Adds an entry.
fn insert<S: PageStore>(index: &mut Index<S>, ask: &Ask) -> CallAnswer
    ensures steps { Continues S.follows index.old.store index.new.store }
    ensures means { Inserts S.PageStore ask.now result index.old index.new
        ⊎ IsMisspelled (SpellsNoEntry ask.now) result index.old index.new }
    ensures quiet { result.is_durable ≡ false }
{
    match ask.entry() {
        Ok(entry) => inserted(index.aminsert(entry)),
        Err(fault) => refused(fault),
    }
}

fn inserted(outcome: Result<Inserted, Fault>) -> CallAnswer
    ensures told { Tells AnswersInserted outcome result }
    ensures quiet { result.is_durable ≡ false }
{
    match outcome {
        Ok(inserted) => CallAnswer {
            number: inserted.action,
            other: unfinished(inserted.unfinished),
            ..DONE
        },
        Err(fault) => refused(fault),
    }
}

// Begins a scan.
fn begin<S: PageStore>(index: &mut Index<S>, ask: &Ask) -> CallAnswer
    ensures steps { Continues S.follows index.old.store index.new.store }
    ensures means { BeginsScan S.PageStore ask.now result index.old index.new
        ⊎ IsMisspelled (SpellsNoRange ask.now) result index.old index.new }
    ensures quiet { result.is_durable ≡ false }
{
    match ask.range() {
        Ok(range) => begun(index.ambeginscan(range)),
        Err(fault) => refused(fault),
    }
}

fn begun(outcome: Result<ScanToken, Fault>) -> CallAnswer
    ensures told { Tells AnswersToken outcome result }
    ensures quiet { result.is_durable ≡ false }
{
    match outcome {
        Ok(token) => CallAnswer {
            number: token.number,
            session: token.session,
            ..DONE
        },
        Err(fault) => refused(fault),
    }
}

// Begins a scan anew.
fn again<S: PageStore>(index: &mut Index<S>, ask: &Ask) -> CallAnswer
    ensures steps { Continues S.follows index.old.store index.new.store }
    ensures means { BeginsAgain S.PageStore ask.now result index.old index.new
        ⊎ IsMisspelled (SpellsNoRange ask.now) result index.old index.new }
    ensures quiet { result.is_durable ≡ false }
{
    match ask.range() {
        Ok(range) => done(index.amrescan(ask.token(), range)),
        Err(fault) => refused(fault),
    }
}

// The next part of a commit.
fn advance<D: Device>(index: &mut Index<Store<D>>) -> CallAnswer
    ensures steps { Continues ⟦<Store<D> as PageStore>⟧.follows index.old.store index.new.store }
    ensures means { Advances ⟦<Store<D> as PageStore>⟧ result index.old index.new }
    ensures quiet { result.is_durable ≡ false }
{
    advanced(index.advance_commit())
}

fn advanced(outcome: Result<Advance, Fault>) -> CallAnswer
    ensures told { Tells AnswersPartOfCommit outcome result }
    ensures quiet { result.is_durable ≡ false }
{
    let number = match outcome {
        Ok(Advance::Nothing) => 0,
        Ok(Advance::Written) => 1,
        Ok(Advance::Opened) => 2,
        Err(fault) => return refused(fault),
    };
    CallAnswer { number, ..DONE }
}

fn done(outcome: Result<(), Fault>) -> CallAnswer
    ensures told { Tells AnswersNothing outcome result }
    ensures quiet { result.is_durable ≡ false }
{
    match outcome {
        Ok(()) => DONE,
        Err(fault) => refused(fault),
    }
}

// Closes a scan.
fn close<S: PageStore>(index: &mut Index<S>, ask: &Ask) -> CallAnswer
    ensures steps { Continues S.follows index.old.store index.new.store }
    ensures means { ClosesHandle S.PageStore ask.now result index.old index.new }
    ensures quiet { result.is_durable ≡ false }
{
    done(index.amendscan(ask.token()))
}

// Names a row that the next bulk delete takes.
fn name(alloc: Global, dead: &mut RowSet, ask: &Ask) -> CallAnswer
    ensures means { Names ask.now result dead.old dead.new }
    ensures quiet { result.is_durable ≡ false }
{
    match ask.row() {
        Ok(row) => done(dead.name(alloc, row)),
        Err(fault) => {
            // Else the next bulk delete would take those that were named before, and not this one.
            dead.rows = None;
            refused(fault)
        }
    }
}

// Deletes all entries of the rows that were named, and forgets these.
fn delete<S: PageStore>(index: &mut Index<S>, dead: &mut RowSet) -> CallAnswer
    ensures steps { Continues S.follows index.old.store index.new.store }
    ensures means { Deletes S.PageStore dead.old result index.old index.new }
    ensures forgotten { dead.new.rows ≡ None }
    ensures quiet { result.is_durable ≡ false }
{
    let outcome = index.ambulkdelete(&*dead);
    dead.rows = None;
    stats_answer(outcome)
}

fn stats_answer(outcome: Result<VacuumStats, Fault>) -> CallAnswer
    ensures told { Tells SpellsStats outcome result }
    ensures quiet { result.is_durable ≡ false }
{
    match outcome {
        Ok(stats) => counted(&stats),
        Err(fault) => refused(fault),
    }
}

// Deletes empty leaves, and counts what is there.
fn clean_up<S: PageStore>(index: &mut Index<S>) -> CallAnswer
    ensures steps { Continues S.follows index.old.store index.new.store }
    ensures means { CleansIndex S.PageStore result index.old index.new }
    ensures quiet { result.is_durable ≡ false }
{
    stats_answer(index.amvacuumcleanup())
}

// Begins to delete all entries of the rows that were named, in parts, and forgets these.
fn begin_delete<S: PageStore>(index: &mut Index<S>, dead: &mut RowSet) -> CallAnswer
    ensures steps { Continues S.follows index.old.store index.new.store }
    ensures means { BeginsDelete S.PageStore dead.old result index.old index.new }
    ensures forgotten { dead.new.rows ≡ None }
    ensures quiet { result.is_durable ≡ false }
{
    let rows = mem::replace(dead, RowSet::new());
    done(index.begin_bulk_delete(rows))
}

// Begins to clean up, in parts.
fn begin_clean_up<S: PageStore>(index: &mut Index<S>) -> CallAnswer
    ensures steps { Continues S.follows index.old.store index.new.store }
    ensures means { BeginsCleanup S.PageStore result index.old index.new }
    ensures quiet { result.is_durable ≡ false }
{
    done(index.begin_cleanup())
}

// So many steps more of what goes on in parts.
fn go_on<S: PageStore>(index: &mut Index<S>, ask: &Ask) -> CallAnswer
    ensures steps { Continues S.follows index.old.store index.new.store }
    ensures means { GoesOn S.PageStore ask.now.block result index.old index.new }
    ensures quiet { result.is_durable ≡ false }
{
    part_answer(index.vacuum(ask.block))
}

fn part_answer(outcome: Result<Option<VacuumStats>, Fault>) -> CallAnswer
    ensures told { Tells AnswersPart outcome result }
    ensures quiet { result.is_durable ≡ false }
{
    match outcome {
        Ok(Some(stats)) => CallAnswer {
            session: 1,
            ..counted(&stats)
        },
        Ok(None) => DONE,
        Err(fault) => refused(fault),
    }
}

// Ends what goes on in parts. Its rows are spent: those that were so before are freed.
fn end_vacuum<S: PageStore>(index: &mut Index<S>, spent: &mut RowSet) -> CallAnswer
    ensures steps { Continues S.follows index.old.store index.new.store }
    ensures means { EndsVacuum S.PageStore result index.old index.new spent.old spent.new }
    ensures quiet { result.is_durable ≡ false }
{
    done(ended(index.end_vacuum(), spent))
}

// Takes the rows of a bulk delete that has ended.
fn ended(outcome: Result<RowSet, Fault>, spent: &mut RowSet) -> Result<(), Fault>
    ensures ok { OnOk outcome (result ≡ Ok tt) }
    ensures err { IfErr outcome (λ fault. (result ≡ Err fault) × (spent.new ≡ spent.old)) }
    ensures taken { IfOk outcome (λ rows. spent.new ≡ rows) }
{
    *spent = outcome?;
    Ok(())
}

// Makes all that was done durable.
fn commit<S: PageStore>(index: &mut Index<S>) -> CallAnswer
    ensures steps { Continues S.follows index.old.store index.new.store }
    ensures means { MakesDurable S.PageStore Forces result index.old index.new }
    ensures durable { result.is_durable ≡ true
        → (S.backing index.new.store).durable ≡ result.number }
{
    durable(index.commit())
}

// Makes all that was done durable, and writes all pages to their places.
fn checkpoint<S: PageStore>(index: &mut Index<S>) -> CallAnswer
    ensures steps { Continues S.follows index.old.store index.new.store }
    ensures means { MakesDurable S.PageStore Checkpoints result index.old index.new }
    ensures durable { result.is_durable ≡ true
        → (S.backing index.new.store).durable ≡ result.number }
{
    durable(index.checkpoint())
}

fn durable(outcome: Result<u64, Fault>) -> CallAnswer
    ensures { Tells AnswersDurable outcome result }
{
    match outcome {
        Ok(number) => CallAnswer {
            number,
            is_durable: true,
            ..DONE
        },
        Err(fault) => refused(fault),
    }
}
