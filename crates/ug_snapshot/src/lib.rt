//! The saved state of a moment of a run. Depends on ug_book and on ug_image. `image_of` returns the
//! image of a book, which is Covered if the book is sound; a `Snapshot` has the opening of a run
//! and an image of it, which is Covered if the opening is.
#![tactic(auto)]

mod moment;
mod shared_opening;
mod snapshot;

pub use moment::image_of;
pub use shared_opening::SharedOpening;
pub use snapshot::Snapshot;
