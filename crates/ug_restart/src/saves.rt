ghost use Rattle.std.specs.Prelude.{◌≡◌, ◌↔◌, ◌≤◌, ◌<◌, ◌+◌, ◌-◌, ◌^◌, Some, IfSome, IsTrue, MatchBool};
ghost use Rattle.ug_disk.specs.Crashes.{Leaves};
ghost use Rattle.ug_rules.specs.Books.{IsSoundBook};
ghost use Rattle.ug_checkpoint.specs.Savers.{IsKept};
ghost use Rattle.ug_snapshot.specs.Moments.{IsCovered};
ghost use Rattle.ug_book.specs.Openings.{IsCoveredOpening};
ghost use Rattle.ug_book.specs.Views.{IsSameRun};
ghost use Rattle.ug_restart.specs.Saves.{IsDue, IsNext, IsOfBook, IsOfSnapshot, IsPassedOver, NoneIsCounted, StepsByOne, begun, book_of, calls_of, missed_of, one_more, opening_of, saver_of, unsaved_of};
ghost use Rattle.ug_restart.specs.Moments.{FindsOne, IsOfRun, IsSafeSave};
ghost use Rattle.ug_restart.specs.Going.{GoesOn, IsAttempted, IsUntouched, time};

use crate::next::{is_short, of_book, of_snapshot};
use crate::outcome::Attempt;
use std::alloc::Global;
use ug_book::{Book, Opening};
use ug_checkpoint::{SaveError, Saver};
use ug_disk::Disk;
use ug_image::Image;
use ug_snapshot::Snapshot;

/// Saves the images of a run after its first one.
#[derive(Drop)]
pub struct Saves {
    saver: Saver,
    opening: Opening,
    // Length of the history of the last snapshot that was saved.
    calls: u64,
    missed: u64,
    unsaved: u64,
}

impl Saves {
    /// Returns the saves of the run that began with the opening, whose first image the saver has
    /// saved.
    pub fn new(saver: Saver, opening: Opening) -> Saves
        ensures { result ≡ begun saver opening }
    {
        Saves {
            saver,
            opening,
            calls: 0,
            missed: 0,
            unsaved: 0,
        }
    }

    /// Returns the number of saves in which the disk failed, up to its largest value.
    pub fn missed(&self) -> u64
        ensures { result ≡ missed_of self.now }
    {
        self.missed
    }

    /// Returns the number of saves that were not made for any other cause, up to its largest value.
    pub fn unsaved(&self) -> u64
        ensures { result ≡ unsaved_of self.now }
    {
        self.unsaved
    }

    /// Saves the image of a snapshot, unless the snapshot has another opening or is no newer than
    /// the last one that was saved.
    pub fn offer<D: Disk>(&mut self, alloc: Global, disk: &mut D, snapshot: Snapshot)
        requires { IsKept (saver_of self.old) (D.seen disk.old).told }
        ensures kept { IsKept (saver_of self.new) (D.seen disk.new).told }
        ensures passed { IsPassedOver self.old snapshot → IsUntouched
            (time self.old (D.seen disk.old)) (time self.new (D.seen disk.new)) }
        ensures acknowledged { ¬ IsPassedOver self.old snapshot → NoneIsCounted self.old self.new
            → FindsOne (IsOfSnapshot snapshot) (D.seen disk.new).told
            × (calls_of self.new ≡ snapshot.count) }
        ensures any_moment { Leaves
            (IsSafeSave (saver_of self.old) (D.seen disk.old).told (IsOfSnapshot snapshot))
            (D.seen disk.old).told (D.seen disk.new).told }
        ensures goes_on { GoesOn (IsCoveredOpening (opening_of self.old)) (Unit {0})
            (time self.old (D.seen disk.old)) (time self.new (D.seen disk.new)) }
        ensures by_one { StepsByOne self.old self.new }
    {
        if self.passes_over(&snapshot) {
            drop(snapshot);
            return;
        }
        let calls = snapshot.count();
        let image = of_snapshot(&self.saver, snapshot);
        if self.save(alloc, disk, image).is_saved() {
            self.calls = calls;
        }
    }

    /// Saves the image of a book: the final one of a run, and each one that a coordinator saves.
    /// Returns what became of the save.
    pub fn finish<D: Disk>(&mut self, alloc: Global, disk: &mut D, book: &Book) -> Attempt
        requires { IsKept (saver_of self.old) (D.seen disk.old).told }
        ensures kept { IsKept (saver_of self.new) (D.seen disk.new).told }
        ensures became { IsAttempted (IsOfBook book.now) result
            (time self.old (D.seen disk.old)) (time self.new (D.seen disk.new)) }
        ensures any_moment { Leaves
            (IsSafeSave (saver_of self.old) (D.seen disk.old).told (IsOfBook book.now))
            (D.seen disk.old).told (D.seen disk.new).told }
        ensures goes_on { GoesOn (IsSoundBook book.now) (IsSameRun (book_of self.old) book.now)
            (time self.old (D.seen disk.old)) (time self.new (D.seen disk.new)) }
        ensures by_one { StepsByOne self.old self.new }
    {
        let image = of_book(alloc, &self.saver, book);
        self.save(alloc, disk, image)
    }

    // Does the snapshot have another opening, or is it no newer than the last one that was saved?
    fn passes_over(&self, snapshot: &Snapshot) -> bool
        ensures over { IsTrue result ↔ IsPassedOver self.now snapshot.now }
        ensures due { MatchBool result
            (IsPassedOver self.now snapshot.now)
            (IsDue self.now snapshot.now) }
    {
        snapshot.count() <= self.calls || !snapshot.opening().is(&self.opening)
    }

    // Saves the image. Counts the save if there is no image or it is not saved.
    fn save<D: Disk>(&mut self, alloc: Global, disk: &mut D, image: Option<Image>) -> Attempt
        requires kept { IsKept self.old.saver (D.seen disk.old).told }
        requires image { IfSome image (IsNext self.old.saver) }
        ensures kept { IsKept self.new.saver (D.seen disk.new).told }
        ensures calls { self.new.calls ≡ self.old.calls }
        ensures became { IsAttempted (λ made. image ≡ Some made) result
            (time self.old (D.seen disk.old)) (time self.new (D.seen disk.new)) }
        ensures any_moment { Leaves
            (IsSafeSave self.old.saver (D.seen disk.old).told (λ made. image ≡ Some made))
            (D.seen disk.old).told (D.seen disk.new).told }
        ensures goes_on { GoesOn (IfSome image IsCovered) (IfSome image (IsOfRun (book_of self.old)))
            (time self.old (D.seen disk.old)) (time self.new (D.seen disk.new)) }
        ensures by_one { StepsByOne self.old self.new }
    {
        let Some(image) = image else {
            self.unsaved = one_more(self.unsaved);
            return Attempt::Unsaved;
        };
        if !is_short(&image) {
            drop(image);
            self.unsaved = one_more(self.unsaved);
            return Attempt::Unsaved;
        }
        match self.saver.save(alloc, disk, &image) {
            Ok(()) => {
                drop(image);
                Attempt::Saved
            }
            Err(SaveError::Memory) => {
                drop(image);
                self.unsaved = one_more(self.unsaved);
                Attempt::Unsaved
            }
            Err(SaveError::Fault) => {
                drop(image);
                self.missed = one_more(self.missed);
                Attempt::Missed
            }
        }
    }
}

// Returns one more, up to the largest value.
fn one_more(count: u64) -> u64
    ensures value { result ≡ one_more count }
    ensures least { count ≤ result }
    ensures most { result ≤ count + 1 }
    ensures rises { count < 2 ^ 64 - 1 → count < result }
{
    count.saturating_add(1)
}
