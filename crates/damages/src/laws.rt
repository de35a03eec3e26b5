//! What holds of the damages of pages.

ghost use Rattle.damages.specs.Laws.{FirstIsOne, FirstIsNone, SoundHasLevels, SoundHasUniqueLevels, SoundHasTree, SoundIsUnique, TreeIsSound};

/// Does nothing: its clauses say that pages have one first damage at most, and none where they are sound.
pub fn first_damage_is_one()
    ensures one { FirstIsOne }
    ensures none { FirstIsNone }
{}

/// Does nothing: its clauses say that pages of the format without a damage are an index of levels. If parents
/// and children are seen too, they are a B-link tree. If keys are seen, they are those of a unique index.
pub fn sound_pages_are_a_tree()
    ensures levels { SoundHasLevels }
    ensures unique_levels { SoundHasUniqueLevels }
    ensures tree { SoundHasTree }
    ensures unique { SoundIsUnique }
{}

/// Does nothing: its clause says that a B-link tree has no damage, be parents and children seen or not. If
/// keys are seen, the tree is one of a unique index.
pub fn trees_are_sound()
    ensures sound { TreeIsSound }
{}
