//! An index in a file that C has open, by calls of C.
//!
//! Eight functions are called from C, and from nowhere else. C gives a handle that `nardsill_proved_new` has
//! made, to one call at a time. For a making, an opening and a check it gives a pointer to the number of a
//! file that it has open for reading and writing. `embedding/` has the header and the wrapper that programs
//! use.
#![tactic(auto)]

ghost use types.Logic.{sem};
ghost use Rattle.std.specs.Ptr.{lies_at};
ghost use Rattle.std.specs.Borrow.{full_share};
ghost use Rattle.std.specs.Box.Ownership.{box_owns};
ghost use Rattle.std.specs.Prelude.{◌≡◌, ◌⊎◌, ◌==◌, None};
ghost use Rattle.nardsill.specs.Asking.{token_of};
ghost use Rattle.nardsill.specs.Checking.{IsChecked};
ghost use Rattle.nardsill.specs.Giving.{GivesNext};
ghost use Rattle.nardsill.specs.Informing.{IsInformed};
ghost use Rattle.nardsill.specs.Making.{IsMade};
ghost use Rattle.nardsill.specs.Owning.{owned_if};
ghost use Rattle.nardsill.specs.Serving.{IsServed};
ghost use Rattle.nardsill.specs.Sharing.{IsShared};
ghost use Rattle.nardsill.specs.Taking.{IsTaken};
ghost use Rattle.nardsill.specs.contracts.handle.Handle.{the_row};
ghost use Rattle.nardsill.specs.contracts.opening.OpenFiles.{the_row as files_row};
ghost use Rattle.std.specs.contracts.fs.File.{the_row as file_row};

mod answer;
mod ask;
mod calls;
mod checking;
mod facts;
mod giving;
mod handle;
mod layout;
mod loose;
mod making;
mod opening;
mod sharing;

use crate::answer::{CallAnswer, Given};
use crate::ask::{Ask, MakeAsk, OpenAsk, Token};
use crate::calls::serve;
use crate::checking::{CheckAsk, Checked, check};
use crate::facts::{Facts, inform};
use crate::giving::give;
use crate::handle::{Handle, made};
use crate::loose::Loose;
use crate::making::make;
use crate::opening::{OpenFiles, take};
use crate::sharing::share;
use device::{Device, FileDevice, Start, Unknown, Zeros};
use page_action::PageStore;
use page_store::Store;
use std::alloc::{Allocator, Global};
use std::fs::File;

/// What C sees of a handle: nothing. No value of it is ever made.
#[repr(C)]
#[derive(Drop)]
pub struct Shell {
    closed: u8,
}

/// A handle with no index in it, at `out`. Answers 0, or 1 where there is no memory.
#[unsafe(no_mangle)]
pub extern "C" fn nardsill_proved_new(alloc: Global, out: &mut *mut Shell) -> u32
    ensures answer { (result ≡ 0) ⊎ (result ≡ 1) }
    ensures* handle { ∃ₛ (λ (v : Handle). sem 𝓛 (owned_if (result == 0)
        (box_owns (⟦<Global as Allocator>⟧.dealloc_token alloc) the_row out.new v))
        ∗ ⌜ (v.index ≡ None) × (v.dead.rows ≡ None) ⌝) }
{
    match made(alloc) {
        Some(Loose { at, alloc: _ }) => {
            *out = at as *mut Shell;
            0
        }
        None => 1,
    }
}

/// Makes an empty index in a file that C has open, by another handle of the same open file; C closes its own.
#[unsafe(no_mangle)]
pub unsafe extern "C" fn nardsill_proved_make(
    at: *mut Shell,
    file: *mut File,
    ask: MakeAsk,
) -> CallAnswer
    ghost both: { Handle × File }
    requires* handle { sem 𝓛 (lies_at the_row full_share at both.0) }
    requires* file { sem 𝓛 (lies_at file_row full_share file both.1) }
    ensures* handle { ∃ₛ (λ (v : Handle). sem 𝓛 (lies_at the_row full_share at v) ∗ ⌜ (v ≡ both.0)
        × IsMade ⟦<FileDevice<Zeros> as Device>⟧ ask result ⌝) }
    ensures* file { sem 𝓛 (lies_at file_row full_share file both.1) }
{
    make(
        unsafe { &mut *(at as *mut Handle) },
        unsafe { &mut *file },
        ask,
    )
}

/// Opens the index in a file that C has open, by other handles of the same open files; C closes its own.
#[unsafe(no_mangle)]
pub unsafe extern "C" fn nardsill_proved_take(
    at: *mut Shell,
    files: *mut OpenFiles,
    ask: OpenAsk,
) -> CallAnswer
    ghost both: { Handle × OpenFiles }
    requires* handle { sem 𝓛 (lies_at the_row full_share at both.0) }
    requires* files { sem 𝓛 (lies_at files_row full_share files both.1) }
    ensures* handle { ∃ₛ (λ (v : Handle). sem 𝓛 (lies_at the_row full_share at v) ∗ ⌜ IsTaken
        ⟦<FileDevice<Unknown> as Device>⟧ ⟦<Store<FileDevice<Unknown>> as PageStore>⟧
        ⟦<Unknown as Start>⟧.bytes result both.0.index v.index both.0.dead v.dead ⌝) }
    ensures* files { sem 𝓛 (lies_at files_row full_share files both.1) }
{
    take(
        unsafe { &mut *(at as *mut Handle) },
        unsafe { &mut *files },
        ask,
    )
}

/// Gives a handle what syncs the file of another's index: then the one may sync it, by a call 16, while the
/// other answers calls.
#[unsafe(no_mangle)]
pub unsafe extern "C" fn nardsill_proved_share(
    at: *mut Shell,
    from: *mut Shell,
    ask: OpenAsk,
) -> CallAnswer
    ghost both: { Handle × Handle }
    requires* handle { sem 𝓛 (lies_at the_row full_share at both.0) }
    requires* from { sem 𝓛 (lies_at the_row full_share from both.1) }
    ensures* handle { ∃ₛ (λ (v : Handle). sem 𝓛 (lies_at the_row full_share at v)
        ∗ ⌜ IsShared result both.0.index v.index both.0.dead v.dead ⌝) }
    ensures* from { sem 𝓛 (lies_at the_row full_share from both.1) }
{
    share(
        unsafe { &mut *(at as *mut Handle) },
        unsafe { &mut *(from as *mut Handle) },
        ask,
    )
}

/// One call, whatever it asks for.
#[unsafe(no_mangle)]
pub unsafe extern "C" fn nardsill_proved_call(at: *mut Shell, ask: Ask) -> CallAnswer
    ghost value: { Handle }
    requires* { sem 𝓛 (lies_at the_row full_share at value) }
    ensures* { ∃ₛ (λ (v : Handle). sem 𝓛 (lies_at the_row full_share at v) ∗ ⌜ IsServed
        ⟦<Store<FileDevice<Unknown>> as PageStore>⟧ ask result
        value.index v.index value.dead v.dead value.spent v.spent ⌝) }
{
    serve(unsafe { &mut *(at as *mut Handle) }, ask)
}

/// The next entry of an open scan.
#[unsafe(no_mangle)]
pub unsafe extern "C" fn nardsill_proved_next(at: *mut Shell, token: Token) -> Given
    ghost value: { Handle }
    requires* { sem 𝓛 (lies_at the_row full_share at value) }
    ensures* { ∃ₛ (λ (v : Handle). sem 𝓛 (lies_at the_row full_share at v) ∗ ⌜ GivesNext
        ⟦<Store<FileDevice<Unknown>> as PageStore>⟧ (token_of token) result
        value.index v.index ⌝) }
{
    give(unsafe { &mut *(at as *mut Handle) }, token)
}

/// What the index of a handle is.
#[unsafe(no_mangle)]
pub unsafe extern "C" fn nardsill_proved_info(at: *mut Shell) -> Facts
    ghost value: { Handle }
    requires* { sem 𝓛 (lies_at the_row full_share at value) }
    ensures* { ∃ₛ (λ (v : Handle). sem 𝓛 (lies_at the_row full_share at v) ∗ ⌜ (v ≡ value)
        × IsInformed ⟦<Store<FileDevice<Unknown>> as PageStore>⟧ result value.index ⌝) }
{
    inform(unsafe { &mut *(at as *mut Handle) })
}

/// Judges the index in a file that C has open, by another handle of the same open file; C closes its own.
#[unsafe(no_mangle)]
pub unsafe extern "C" fn nardsill_proved_check(
    at: *mut Shell,
    file: *mut File,
    ask: CheckAsk,
) -> Checked
    ghost both: { Handle × File }
    requires* handle { sem 𝓛 (lies_at the_row full_share at both.0) }
    requires* file { sem 𝓛 (lies_at file_row full_share file both.1) }
    ensures* handle { ∃ₛ (λ (v : Handle). sem 𝓛 (lies_at the_row full_share at v) ∗ ⌜ (v ≡ both.0)
        × IsChecked ⟦<FileDevice<Unknown> as Device>⟧
        ⟦<Store<FileDevice<Unknown>> as PageStore>⟧ ⟦<Unknown as Start>⟧.bytes result ⌝) }
    ensures* file { sem 𝓛 (lies_at file_row full_share file both.1) }
{
    check(
        unsafe { &mut *(at as *mut Handle) },
        unsafe { &mut *file },
        ask,
    )
}
