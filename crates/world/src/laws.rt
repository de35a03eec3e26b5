//! The laws.

ghost use Rattle.world.specs.Fresh.{NewIndexesAreTrees};

/// Does nothing: its clause says that the pages of an index that `recovery::create` made on a device (`own`)
/// are a B-link tree without entries, keyed if it is unique, now and in whatever a crash leaves. That is what
/// `World::open` and those that open an index by it ask of a device (`begins`).
pub fn new_indexes_are_trees()
    ensures { NewIndexesAreTrees }
{}
