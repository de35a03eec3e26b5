//! Giving another handle what syncs the file of an index.

ghost use Rattle.std.specs.Prelude.{◌≡◌};
ghost use Rattle.nardsill.specs.Sharing.{IsShared};

use crate::answer::{CallAnswer, DONE, refused};
use crate::ask::OpenAsk;
use crate::handle::Handle;
use index_model::Fault;

/// Gives `handle` what syncs the file of the index that `from` has. So a thread may sync it while another
/// makes calls of `from`. Tells the descriptor of the open file by which it syncs, for a forked child to
/// close. Nothing of what is asked is read. Refused with `NoSession` (12) if `from` has no index, or none
/// that was opened with a second open file; and with `NoMemory` (1): nothing is changed then.
pub fn share(handle: &mut Handle, from: &mut Handle, _ask: OpenAsk) -> CallAnswer
    ensures { (from.new ≡ from.old)
        × IsShared result handle.old.index handle.new.index handle.old.dead handle.new.dead }
{
    let Some(syncer) = &from.syncer else {
        return refused(Fault::NoSession);
    };
    match syncer.try_clone() {
        Ok(syncer) => {
            let descriptor = syncer.descriptor();
            handle.syncer = Some(syncer);
            CallAnswer { descriptor, ..DONE }
        }
        Err(_) => refused(Fault::NoMemory),
    }
}
