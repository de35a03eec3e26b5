//! What a device is.

ghost use Rattle.std.specs.Prelude.{◌≡◌, ◌+◌, ◌^◌, ◌≤◌, ◌<◌, ◌↔◌, ℕ, Bool, IsTrue, length, OnOk};
ghost use Rattle.device.specs.Disk.{Trace, Reads, Writes, Syncs, CountsFailures};

use index_model::Fault;
use std::io::Error;

/// A device of a fixed number of bytes, which may fail, and whose writes a crash may tear until they
/// are synced.
///
/// Contracts see its bytes as a read gives them and which of them a crash may change, now and at each
/// moment so far; how many calls have failed; and whether each answer so far was one that this model
/// allows. A memory device always keeps the model; a file may break it, by a read that gives other
/// bytes than those that were written.
pub trait Device {
    /// The bytes as read and which of them a crash may change, now and at each earlier moment.
    ghost trace: { Self → Trace };

    /// How many calls have failed.
    ghost failures: { Self → ℕ };

    /// Each answer so far was one that the model allows.
    ghost is_honest: { Self → Bool };

    /// How many bytes it has. This never changes.
    fn len(&self) -> u64
        ensures { result ≡ length (trace self.now).now.seen };

    /// What the system said of the last call that failed and was made, if the device is of a system. No
    /// clause tells of it.
    fn error(&self) -> Option<Error> {
        None
    }

    /// Reads the bytes from `at` on. At `Io` the buffer holds any bytes, and the device is as it
    /// was.
    fn read_at(&mut self, at: u64, buf: &mut [u8]) -> Result<(), Fault>
        requires range { at + length buf.old ≤ length (trace self.old).now.seen }
        // What is read is what is there, if the device keeps the model.
        ensures read { IsTrue (is_honest self.new)
            → OnOk result (Reads (trace self.old) at buf.old buf.new) }
        ensures honest { IsTrue (is_honest self.new) ↔ (IsTrue (is_honest self.old)
            × OnOk result (Reads (trace self.old) at buf.old buf.new)) }
        ensures trace { trace self.new ≡ trace self.old }
        ensures failures { CountsFailures result (failures self.old) (failures self.new) };

    /// Writes the bytes from `at` on. Until the next sync a crash may leave any bytes there. At `Io`
    /// nothing was written, or the range holds any bytes from now on.
    fn write_at(&mut self, at: u64, bytes: &[u8]) -> Result<(), Fault>
        requires range { at + length bytes.now ≤ length (trace self.old).now.seen }
        ensures trace { Writes at bytes.now result (trace self.old) (trace self.new) }
        ensures len { length (trace self.new).now.seen ≡ length (trace self.old).now.seen }
        ensures honest { is_honest self.new ≡ is_honest self.old }
        ensures failures { CountsFailures result (failures self.old) (failures self.new) };

    /// Makes all that was written stand through a crash, also what an earlier sync that failed did not. At
    /// `Io` the device is as it was. A device whose later syncs may pass over what a failed one lost, as
    /// those of a file do, refuses each call from that failure on.
    fn sync(&mut self) -> Result<(), Fault>
        ensures trace { Syncs result (trace self.old) (trace self.new) }
        ensures len { length (trace self.new).now.seen ≡ length (trace self.old).now.seen }
        ensures honest { is_honest self.new ≡ is_honest self.old }
        ensures failures { CountsFailures result (failures self.old) (failures self.new) };

    /// Offsets and their sums fit into a word.
    ghost small: { (device : Self) → length (trace device).now.seen < 2 ^ 63 };
}
