//! What a command leaves.

ghost use Rattle.std.specs.Prelude.{◌≡◌};
ghost use Rattle.command_line.specs.Left.{end_of};

use crate::copying::Copied;
use crate::dead::DeadList;
use crate::end::End;
use crate::file_commands::{Created, Looked};
use crate::play::RanScript;
use crate::running::RanFile;
use crate::said::Said;
use std::io;

/// What a command leaves, by which it was: all that its own clauses name. `D` is the device of an index in a
/// file, `S` its store, and `N` the device of a new file.
#[derive(Drop)]
pub enum Left<'a, D, N, S> {
    /// No command was run: help was asked for, the words were no command line, or there was no memory to read
    /// them.
    Nothing(io::Result<End>),
    Played(RanScript),
    Ran(RanFile<'a, D, S, DeadList>),
    Created(Created<'a, N>),
    Copied(Copied<'a, D, N, S>),
    Checked(Looked<'a, D, S>),
    Dumped(Looked<'a, D, S>),
}

impl<'a, D, N, S> Left<'a, D, N, S> {
    /// How the command ended.
    pub fn end(&self) -> &io::Result<End>
        ensures { result.now ≡ end_of self.now }
    {
        match self {
            Left::Nothing(end) => end,
            Left::Played(script) => &script.end,
            Left::Ran(ran) => &ran.end,
            Left::Created(created) => &created.end,
            Left::Copied(copied) => &copied.end,
            Left::Checked(looked) | Left::Dumped(looked) => &looked.end,
        }
    }

    /// What the system said, if the command was refused for that.
    pub fn said(&self) -> Option<Said<'a>> {
        match self {
            Left::Nothing(_) | Left::Played(_) => None,
            Left::Ran(ran) => ran.said,
            Left::Created(created) => created.said,
            Left::Copied(copied) => copied.said,
            Left::Checked(looked) | Left::Dumped(looked) => looked.said,
        }
    }
}
