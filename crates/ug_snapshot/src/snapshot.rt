ghost use Rattle.std.specs.Prelude.{◌≡◌, length};
ghost use Rattle.ug_snapshot.specs.Snapshots.{IsSnapshot};

use crate::shared_opening::SharedOpening;
use std::marker::Model;
use ug_book::Opening;
use ug_image::Image;

/// What was held at a moment, to be saved: if its opening is covered, so is its image.
#[derive(Drop)]
pub struct Snapshot {
    began: SharedOpening,
    // Under sequence 1: the saver replaces it by the next one.
    image: Image,
    count: u64,
}

impl Model for Snapshot {
    ghost use Rattle.ug_snapshot.specs.Snapshots.{IsSnapshot, SnapshotState};
    ghost use Rattle.ug_snapshot.specs.SnapshotViews.{snapshot_of};

    ghost Value = { SnapshotState };

    ghost view = { snapshot_of };

    ghost invariant = { λ s. IsSnapshot (snapshot_of s) };
}

impl Snapshot {
    /// A snapshot of what began with this opening, with this image, after this many calls.
    pub fn new(began: SharedOpening, image: Image, count: u64) -> Snapshot
        requires { IsSnapshot (record { opening = began; image = image; count = count }) }
        ensures { result ≡ record { opening = began; image = image; count = count } }
    {
        Snapshot {
            began,
            image,
            count,
        }
    }

    /// What the run began with.
    pub fn opening(&self) -> &Opening
        ensures { result.now ≡ self.now.opening }
    {
        self.began.opening()
    }

    /// How many calls the history had.
    pub fn count(&self) -> u64
        ensures { result ≡ self.now.count }
    {
        self.count
    }

    /// How many nodes the image has.
    pub fn nodes(&self) -> usize
        ensures { result ≡ length self.now.image.nodes }
    {
        self.image.nodes.len()
    }

    /// The image of then, under sequence 1.
    pub fn into_image(self) -> Image
        ensures value { result ≡ self.image }
        ensures snapshot { IsSnapshot self }
    {
        let Snapshot { began, image, .. } = self;
        drop(began);
        image
    }
}
