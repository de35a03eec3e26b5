//! What the verifier answers: no damage, or the first of those that there are. No store is known here, and no
//! search.
#![tactic(auto)]

mod laws;

pub use laws::{first_damage_is_one, sound_pages_are_a_tree, trees_are_sound};
