//! Actions as plain values.

use index_model::Entry;

/// What an action does to the contents.
#[derive(Drop)]
pub enum PlainEffect {
    /// One entry more.
    Adds(Entry),
    /// These entries fewer.
    Removes(Vec<Entry>),
    /// Nothing: the shape of the tree alone changes.
    Reshapes,
}

/// An action: what it does, and the number of the call that it belongs to.
#[derive(Drop)]
pub struct PlainAction {
    pub by: usize,
    pub effect: PlainEffect,
}
