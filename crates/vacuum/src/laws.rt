//! The laws.

ghost use Rattle.vacuum.specs.Laws.{BulkDeletesAreUndisturbed, DueIsUndisturbed, AllIsToCome, NothingIsCounted, BulkDeletesAreBounded};

/// Does nothing: its clause says that what others do leaves a bulk delete what it knows.
pub fn bulk_deletes_are_undisturbed()
    ensures { BulkDeletesAreUndisturbed }
{}

/// Does nothing: its clause says that acts which leave the leaves of a bulk delete leave what is due to it to
/// come.
pub fn due_is_undisturbed()
    ensures { DueIsUndisturbed }
{}

/// Does nothing: its clause says that at the beginning of a bulk delete each entry is to come.
pub fn all_is_to_come()
    ensures { AllIsToCome }
{}

/// Does nothing: its clause says that at the beginning of a bulk delete nothing is counted.
pub fn nothing_is_counted()
    ensures { NothingIsCounted }
{}

/// Does nothing: its clause says that at each moment what is left to do for a bulk delete has a bound.
pub fn bulk_deletes_are_bounded()
    ensures { BulkDeletesAreBounded }
{}
