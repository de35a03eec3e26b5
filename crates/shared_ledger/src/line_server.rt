//! What each thread does: it draws a line, makes its call, and prints the answer.

ghost use Rattle.std.specs.Prelude.{◌≡◌};
ghost use Rattle.shared_index.specs.Sessions.{number_of_seat};

use crate::requests::{Pause, Requests};
use index_model::{Entry, Fault, Range, VacuumStats};
use ledger_lines::{Dead, LedgerLine, Reply, listed, parse, put_entry, put_reply};
use page_action::PageStore;
use shared_index::{Client, SharedIndex, SharedSession};
use shared_world::OriginOn;
use std::alloc::Global;
use std::io::{self, BufRead, Write};
use std::sync::{Mutex, Wait};
use std::time::Clock;
use text_forms::{Rows, first_line};
use whole_calls::Inserted;

/// How many entries a list holds in memory.
const BATCH: usize = 64;

/// The input and the output that threads share. Each answer begins with the number of its line.
#[derive(Drop)]
pub struct LineServer<'a, R: Wait, I, O> {
    rt: &'a R,
    alloc: Global,
    requests: Mutex<Requests<I>>,
    out: Mutex<O>,
}

impl<'a, R: Wait + Clock, I: BufRead, O: Write> LineServer<'a, R, I, O> {
    /// Lines of this input, with their answers to this output.
    pub fn new(rt: &'a R, alloc: Global, input: I, out: O) -> LineServer<'a, R, I, O> {
        LineServer {
            rt,
            alloc,
            requests: Mutex::new(Requests::new(input)),
            out: Mutex::new(out),
        }
    }

    /// Why no line is drawn any more.
    pub fn end(&self) -> Pause {
        self.requests.lock(self.rt).end()
    }

    fn draw(&self, line: &mut Vec<u8>) -> Option<u64> {
        self.requests.lock(self.rt).draw(line)
    }

    // If the output failed, no line is drawn any more.
    fn note(&self, printed: io::Result<()>) {
        if let Err(error) = printed {
            self.requests.lock(self.rt).fail(error);
        }
    }

    fn print(&self, number: u64, reply: &Reply) {
        let printed = {
            let mut out = self.out.lock(self.rt);
            print_line(&mut *out, number, reply)
        };
        self.note(printed);
    }

    fn print_all(&self, number: u64, entries: &[Entry]) {
        let printed = {
            let mut out = self.out.lock(self.rt);
            print_entries(&mut *out, number, entries)
        };
        self.note(printed);
    }

    // Makes the call of a line, and answers it. A list prints its entries before.
    fn call<S: PageStore, J: OriginOn<S>>(
        &self,
        index: &SharedIndex<S, Dead, J>,
        session: &mut SharedSession<J>,
        number: u64,
        text: &[u8],
    ) -> Reply
        ensures { number_of_seat session.new.seat ≡ number_of_seat session.old.seat }
    {
        let line = match parse(text) {
            Some(Ok(line)) => line,
            Some(Err(fault)) => return Reply::Refused(fault),
            None => return Reply::NotALine,
        };
        match line {
            LedgerLine::Insert(entry) => added(session.insert(self.rt, index, entry)),
            LedgerLine::Delete(rows) => self.delete(index, session, rows),
            LedgerLine::List(range) => self.list(index, session, number, range),
            LedgerLine::Vacuum => cleaned_up(session.clean_up(self.rt, index)),
            LedgerLine::Checkpoint => checkpointed(session.checkpoint(self.rt, index)),
            LedgerLine::Commit => committed(session.commit(self.rt, index)),
        }
    }

    // Prints the entries of a range by batches, as a scan gives them.
    fn list<S: PageStore, J: OriginOn<S>>(
        &self,
        index: &SharedIndex<S, Dead, J>,
        session: &mut SharedSession<J>,
        number: u64,
        range: Range,
    ) -> Reply
        ensures { number_of_seat session.new.seat ≡ number_of_seat session.old.seat }
    {
        let Ok(mut entries) = Vec::with_capacity(self.alloc, BATCH) else {
            return Reply::Refused(Fault::NoMemory);
        };
        if let Err(fault) = session.scan(self.rt, index, range) {
            return Reply::Refused(fault);
        }
        let mut count = 0u64;
        for _ in self.rt.forever() {
            entries.clear();
            let batch = session.batch(self.rt, index, &mut entries);
            count = count.saturating_add(entries.len() as u64);
            self.print_all(number, entries.as_slice());
            match batch {
                Ok(true) => return Reply::Listed(count),
                Ok(false) => {}
                Err(fault) => {
                    let _left = session.leave_scan(self.rt, index);
                    return Reply::Refused(fault);
                }
            }
        }
        unreachable!()
    }

    // Deletes the entries of these rows.
    fn delete<S: PageStore, J: OriginOn<S>>(
        &self,
        index: &SharedIndex<S, Dead, J>,
        session: &mut SharedSession<J>,
        rows: Rows<'_>,
    ) -> Reply
        ensures { number_of_seat session.new.seat ≡ number_of_seat session.old.seat }
    {
        let Ok(dead) = listed(self.alloc, rows) else {
            return Reply::Refused(Fault::NoMemory);
        };
        match session.delete_rows(self.rt, index, dead) {
            Ok(done) => deleted(done.told),
            Err(not_put) => Reply::Refused(not_put.fault),
        }
    }

    // Draws lines and answers them, until none is drawn.
    fn serve<S: PageStore, J: OriginOn<S>>(
        &self,
        index: &SharedIndex<S, Dead, J>,
        session: &mut SharedSession<J>,
    )
        ensures { number_of_seat session.new.seat ≡ number_of_seat session.old.seat }
    {
        let mut line = Vec::new(self.alloc);
        for _ in self.rt.forever() {
            let Some(number) = self.draw(&mut line) else {
                return;
            };
            let reply = self.call(index, session, number, first_line(line.as_slice()).0);
            self.print(number, &reply);
        }
    }
}

// What the answers of calls are printed as.
fn added(answer: Result<Inserted, Fault>) -> Reply {
    match answer {
        Ok(inserted) => Reply::Added(inserted),
        Err(fault) => Reply::Refused(fault),
    }
}

fn deleted(answer: Result<VacuumStats, Fault>) -> Reply {
    match answer {
        Ok(stats) => Reply::Deleted(stats.tuples_removed),
        Err(fault) => Reply::Refused(fault),
    }
}

fn cleaned_up(answer: Result<VacuumStats, Fault>) -> Reply {
    match answer {
        Ok(stats) => Reply::CleanedUp(stats),
        Err(fault) => Reply::Refused(fault),
    }
}

fn checkpointed(answer: Result<u64, Fault>) -> Reply {
    match answer {
        Ok(actions) => Reply::Checkpointed(actions),
        Err(fault) => Reply::Refused(fault),
    }
}

fn committed(answer: Result<u64, Fault>) -> Reply {
    match answer {
        Ok(actions) => Reply::Committed(actions),
        Err(fault) => Reply::Refused(fault),
    }
}

fn print_line<O: Write>(out: &mut O, number: u64, reply: &Reply) -> io::Result<()> {
    write!(out, "{number} ")?;
    put_reply(out, reply)?;
    out.flush()
}

fn print_entries<O: Write>(out: &mut O, number: u64, entries: &[Entry]) -> io::Result<()> {
    for entry in entries {
        write!(out, "{number} ")?;
        put_entry(out, entry)?;
    }
    Ok(())
}

impl<'a, S: PageStore, R: Wait + Clock, I: BufRead, O: Write> Client<S, Dead>
    for LineServer<'a, R, I, O> {
    type Out = ();

    ghost learnt = { λ out calls. Unit {0} };

    fn work<J: OriginOn<S>>(
        &self,
        index: &SharedIndex<S, Dead, J>,
        session: &mut SharedSession<J>,
        _number: u32,
    ) {
        self.serve(index, session);
    }
}
