//! The image of a run: what a checkpoint saves, and its bytes, block by block and read back.
//! It depends on ug_fields and ug_records for fields and the problem's record, and on ug_nodes.
//! `Image` is what is saved; its spelling in specs/ names its bytes, field by field, by version.
//! `decode` reads every spelling back, of versions 1, 2 and 3, and says of all other bytes where
//! the first bad field stands. `Blocks` fills buffers with a spelling, and takes memory for a line.
#![tactic(auto)]

mod advancing;
mod best;
mod blocks;
mod changes;
mod counting;
mod counts;
mod decoding;
mod encoding;
mod error;
mod fields;
mod head;
mod image;
mod laws;
mod lines;
mod nodes;
mod record;
mod stage;

pub use blocks::Blocks;
pub use counting::length;
pub use decoding::decode;
pub use encoding::encode;
pub use error::ImageError;
pub use image::{Image, Saved, SavedNode};
pub use laws::spellings_are_unique;
