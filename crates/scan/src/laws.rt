//! The laws.

ghost use Rattle.scan.specs.Laws.{ScansAreUndisturbed, FreshScansAreBounded, ScansAreBounded};

/// Does nothing: its clause says that what others do leaves a scan what it knows.
pub fn scans_are_undisturbed()
    ensures { ScansAreUndisturbed }
{}

/// Does nothing: its clause says that a scan makes a bounded number of steps, while the pages stay as they
/// are.
pub fn fresh_scans_are_bounded()
    ensures { FreshScansAreBounded }
{}

/// Does nothing: its clause says that at each moment what is left to do for a scan has a bound, while the
/// pages stay as they are.
pub fn scans_are_bounded()
    ensures { ScansAreBounded }
{}
