//! What a running call may count on.

ghost use Rattle.session_calls.specs.Undisturbed.{CallsAreUndisturbed, DeletionsAreUndisturbed};

/// Does nothing: its clause says that what others do leaves a running call what it stands on.
pub fn calls_are_undisturbed()
    ensures { CallsAreUndisturbed }
{}

/// Does nothing: its clause says that others whose acts leave its leaves leave a bulk delete what it is to
/// remove.
pub fn deletions_are_undisturbed()
    ensures { DeletionsAreUndisturbed }
{}
