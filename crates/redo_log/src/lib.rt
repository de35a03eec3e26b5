//! A redo log of whole pages, in groups after gates. A crash leaves a prefix of what was appended, which has
//! all that was forced.
#![tactic(auto)]

mod gate;
mod image;
mod image_list;
mod lay;
mod log;
mod reading;
mod waiting;

pub use gate::Advance;
pub use image::are_images;
pub use log::{Log, Replayed};
