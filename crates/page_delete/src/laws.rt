//! The laws.

ghost use Rattle.page_delete.specs.Laws.{CleanupsAreUndisturbed, CleanupsAreBounded, NothingIsCleaned, NothingIsSpared};

/// Does nothing: its clause says that what others do leaves a cleanup what it knows.
pub fn cleanups_are_undisturbed()
    ensures { CleanupsAreUndisturbed }
{}

/// Does nothing: its clause says that at each moment what is left to do for a cleanup has a bound.
pub fn cleanups_are_bounded()
    ensures { CleanupsAreBounded }
{}

/// Does nothing: its clauses say that at the beginning of a cleanup nothing is counted, and that it has left
/// nothing to clean: no half-dead page, nor, if there is none, an empty leaf that might go.
pub fn nothing_is_cleaned()
    ensures counts { NothingIsCleaned }
    ensures spares { NothingIsSpared }
{}
