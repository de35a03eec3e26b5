//! The laws.

ghost use Rattle.insert_split.specs.Laws.{InsertsAreUndisturbed, FreshInsertsAreBounded, InsertsAreBounded};

/// Does nothing: its clause says that what others do leaves an insert what it knows.
pub fn inserts_are_undisturbed()
    ensures { InsertsAreUndisturbed }
{}

/// Does nothing: its clause says that an insert makes a bounded number of steps, while the pages stay as they
/// are.
pub fn fresh_inserts_are_bounded()
    ensures { FreshInsertsAreBounded }
{}

/// Does nothing: its clause says that at each moment what is left to do for an insert has a bound, while the
/// pages stay as they are.
pub fn inserts_are_bounded()
    ensures { InsertsAreBounded }
{}
