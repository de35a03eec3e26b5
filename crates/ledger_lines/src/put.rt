//! Lines that are put together before they are written, so that it is known what a writer has of one that it
//! doesn't take whole.

ghost use Rattle.std.specs.Prelude.{◌≤◌, ◌∷◌, ◌++◌, [], Some, length, take, IfOk, OnOk, OnErr};
ghost use Rattle.std.specs.Io.KnownBytes.{Appends, Keeps};
ghost use Rattle.text_forms.specs.Printing.{PrintsLine, given_text};
ghost use Rattle.ledger_lines.specs.Breaking.{AppendsFirst};
ghost use Rattle.ledger_lines.specs.Replies.{reply_text};

use crate::reply::{Reply, print_reply};
use arrayvec::ArrayVec;
use index_model::Entry;
use std::io::{self, Write};
use text_forms::print_entry;

/// Writes the line of a reply. If the writer fails, it has the first bytes of the line, or none.
pub fn put_reply<W: Write>(out: &mut W, reply: &Reply) -> io::Result<()>
    ensures all { PrintsLine (W.contents out.old) (W.contents out.new) result (reply_text reply.now) }
    ensures first { OnErr result (AppendsFirst (W.contents out.old) (W.contents out.new)
        (reply_text reply.now ++ 10 ∷ [])) }
{
    // No reply has more bytes.
    let mut line = ArrayVec::<u8, 256>::new();
    print_reply(&mut line, reply)?;
    put(out, line.as_slice())
}

/// Writes the line of an entry, `entry KEY ROW`. If the writer fails, it has the first bytes of the line, or
/// none.
pub fn put_entry<W: Write>(out: &mut W, entry: &Entry) -> io::Result<()>
    ensures all { PrintsLine (W.contents out.old) (W.contents out.new) result
        (given_text (Some entry.now)) }
    ensures first { OnErr result (AppendsFirst (W.contents out.old) (W.contents out.new)
        (given_text (Some entry.now) ++ 10 ∷ [])) }
{
    // No line of an entry has more bytes.
    let mut line = ArrayVec::<u8, 256>::new();
    print_entry(&mut line, entry)?;
    put(out, line.as_slice())
}

// Writes bytes until the writer has taken all, or has failed.
fn put<W: Write>(out: &mut W, bytes: &[u8]) -> io::Result<()>
    ensures all { OnOk result (Appends (W.contents out.old) (W.contents out.new) bytes.now) }
    ensures first { AppendsFirst (W.contents out.old) (W.contents out.new) bytes.now }
{
    let mut rest = bytes;
    // No writer takes nothing 2^64 times.
    for _ in 0..u64::MAX {
        if rest.is_empty() {
            return Ok(());
        }
        let taken = write_some(out, rest)?;
        rest = &rest[taken..];
    }
    Err(io::Error::from(io::ErrorKind::Other))
}

// Writes bytes once, and answers how many the writer has taken: none if it was interrupted.
#[tactic(auto, using(crate::proofs::Putting::appends_none, crate::proofs::Putting::keeps_none))]
fn write_some<W: Write>(out: &mut W, bytes: &[u8]) -> io::Result<usize>
    ensures bound { IfOk result (λ n. n ≤ length bytes.now) }
    ensures taken { IfOk result (λ n.
        Appends (W.contents out.old) (W.contents out.new) (take n bytes.now)) }
    ensures kept { OnErr result (Keeps (W.contents out.old) (W.contents out.new)) }
{
    match out.write(bytes) {
        Ok(0) => Err(io::Error::from(io::ErrorKind::WriteZero)),
        Ok(taken) => Ok(taken),
        Err(error) => {
            if error.kind() == io::ErrorKind::Interrupted {
                Ok(0)
            } else {
                Err(error)
            }
        }
    }
}
