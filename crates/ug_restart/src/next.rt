//! The image that is saved next.

ghost use Rattle.std.specs.Prelude.{◌≡◌, ◌≤◌, ◌<◌, ◌+◌, ◌^◌, length, IfSome, IsTrue};
ghost use Rattle.ug_image.specs.Images.{IsImage};
ghost use Rattle.ug_image.specs.Spelling.{spelled};
ghost use Rattle.ug_rules.specs.Books.{IsSoundBook};
ghost use Rattle.ug_checkpoint.specs.Savers.{sequence_of};
ghost use Rattle.ug_snapshot.specs.Moments.{IsCovered};
ghost use Rattle.ug_book.specs.Openings.{IsCoveredOpening, opening_book};
ghost use Rattle.ug_restart.specs.Moments.{IsOfRun};
ghost use Rattle.ug_restart.specs.Saves.{IsNext, IsOfBook, IsOfSnapshot, under};

use std::alloc::Global;
use ug_book::Book;
use ug_checkpoint::Saver;
use ug_image::{Image, length};
use ug_snapshot::{Snapshot, image_of};

/// Returns the image of a snapshot under the next sequence number, or `None` if there is no next
/// number.
#[tactic(auto, using(crate::proofs::Making::of_run_under))]
pub fn of_snapshot(saver: &Saver, snapshot: Snapshot) -> Option<Image>
    ensures next { IfSome result (IsNext saver.now) }
    ensures of { IfSome result (IsOfSnapshot snapshot) }
    ensures covered { IsCoveredOpening snapshot.opening → IfSome result IsCovered }
    ensures run { IfSome result (IsOfRun (opening_book snapshot.opening)) }
{
    let Some(sequence) = next_sequence(saver) else {
        drop(snapshot);
        return None;
    };
    Some(under(sequence, snapshot.into_image()))
}

/// Returns the image of a book under the next sequence number, or `None` if there is no next number
/// or no memory.
pub fn of_book(alloc: Global, saver: &Saver, book: &Book) -> Option<Image>
    ensures next { IfSome result (IsNext saver.now) }
    ensures of { IfSome result (IsOfBook book.now) }
    ensures covered { IsSoundBook book.now → IfSome result IsCovered }
{
    let sequence = next_sequence(saver)?;
    match image_of(alloc, book, sequence) {
        Ok(image) => Some(image),
        Err(_) => None,
    }
}

/// Does the image have less than 2^63 bytes? No memory holds more.
pub fn is_short(image: &Image) -> bool
    ensures { IsTrue result → length (spelled image.now) < 2 ^ 63 }
{
    length(image) < 1 << 63
}

// Returns the sequence number after that of the last acknowledged image.
fn next_sequence(saver: &Saver) -> Option<u64>
    ensures next { IfSome result (λ n. n ≡ sequence_of saver.now + 1) }
    ensures fits { IfSome result (λ n. n < 2 ^ 64) }
{
    saver.sequence().checked_add(1)
}

// Returns the image with another sequence number.
fn under(sequence: u64, mut image: Image) -> Image
    ensures { result ≡ under sequence image }
{
    image.sequence = sequence;
    image
}
