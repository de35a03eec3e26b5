//! A law.

ghost use Rattle.shared_world.specs.Rows.{RowsTellSets};

/// Does nothing: its clause says that two sets with the same list of rows agree on the address of each row.
/// So the rows that the log has of a call tell what it was to remove.
pub fn rows_tell_sets()
    ensures { RowsTellSets }
{}
