ghost use Rattle.std.specs.Prelude.{◌≡◌, ◌≤◌, ◌<◌, ◌<ℤ◌, ◌≤ℤ◌, ◌+◌, ◌^◌, length, IfOk, IfErr, OnOk};
ghost use Rattle.std.specs.Option.{option_copied};
ghost use Rattle.ug_io.specs.Outside.{IsCountedBy};
ghost use Rattle.ug_disk.specs.Crashes.{Leaves};
ghost use Rattle.ug_checkpoint.specs.Savers.{IsKept, sequence_of};
ghost use Rattle.ug_image.specs.Images.{IsImage};
ghost use Rattle.ug_image.specs.Spelling.{spelled};
ghost use Rattle.ug_book.specs.Openings.{IsOpening, opening_book};
ghost use Rattle.ug_snapshot.specs.Moments.{IsImageOf};
ghost use Rattle.ug_restart.specs.Faults.{start_cause};
ghost use Rattle.ug_restart.specs.Starts.{IsSpent, next_run};
ghost use Rattle.ug_restart.specs.Openings.{IsAcknowledgedStart, IsNotSaved, IsSafeFirst};
ghost use Rattle.ug_restart.specs.declared.fault.StartFault.TheVariants.{Spent, SmallerGap};

use crate::fault::StartFault;
use std::alloc::{AllocError, Global};
use ug_book::{Book, Opening};
use ug_checkpoint::{Found, Saver};
use ug_disk::Disk;
use ug_image::Image;
use ug_rules::Settings;
use ug_snapshot::image_of;

/// One more than the largest stored run or sequence number that may be continued.
const SPENT: u64 = 1 << 62;

/// Returns the run number after that of the image found, or 1.
pub fn next_run(found: Option<&Found>) -> Result<u64, StartFault>
    ensures run { IfOk result (λ run. run ≡ next_run (option_copied found.entry)) }
    ensures room { OnOk result (¬ IsSpent (option_copied found.entry)) }
    ensures spent { IfErr result (λ e. (e ≡ Spent) × IsSpent (option_copied found.entry)) }
{
    match found {
        None => Ok(1),
        Some(found) => {
            if found.image.run >= SPENT || found.image.sequence >= SPENT {
                return Err(StartFault::Spent);
            }
            Ok(found.image.run + 1)
        }
    }
}

/// Is the gap of the settings at least the stored one?
pub fn check_gap(found: &Found, settings: &Settings) -> Result<(), StartFault>
    ensures ok { OnOk result (found.now.image.gap ≤ℤ settings.now.gap) }
    ensures err { IfErr result (λ e. (e ≡ SmallerGap found.now.image.gap settings.now.gap)
        × (settings.now.gap <ℤ found.now.image.gap)) }
{
    let (kept, asked) = (found.image.gap, settings.gap);
    if asked < kept {
        return Err(StartFault::SmallerGap { kept, asked });
    }
    Ok(())
}

/// Saves the first image of a run, that of the book that starts with the opening.
#[tactic(auto, using(crate::proofs::Causes::not_saved))]
pub fn save_first<D: Disk>(
    alloc: Global,
    disk: &mut D,
    opening: &Opening,
    saver: &mut Saver,
) -> Result<(), StartFault>
    requires opening { IsOpening opening.now }
    requires kept { IsKept saver.old (D.seen disk.old).told }
    requires room { sequence_of saver.old < 2 ^ 62 }
    ensures acknowledged { OnOk result (IsAcknowledgedStart (D.seen disk.new).told
        (opening_book opening.now) saver.new) }
    ensures sequence { OnOk result (sequence_of saver.new ≡ sequence_of saver.old + 1) }
    ensures kept { IsKept saver.new (D.seen disk.new).told }
    ensures refused { IfErr result IsNotSaved }
    ensures any_moment { Leaves
        (IsSafeFirst saver.old (D.seen disk.old).told (opening_book opening.now))
        (D.seen disk.old).told (D.seen disk.new).told }
    ensures cause { IsCountedBy start_cause result
        (D.seen disk.old).faults (D.seen disk.new).faults }
{
    let Ok(image) = first_image(alloc, opening, saver.sequence() + 1) else {
        return Err(StartFault::Memory);
    };
    let saved = saver.save(alloc, disk, &image);
    drop(image);
    match saved {
        Ok(()) => Ok(()),
        Err(error) => Err(StartFault::from(error)),
    }
}

// Returns the image of the book that starts with the opening, under this sequence number.
fn first_image(alloc: Global, opening: &Opening, sequence: u64) -> Result<Image, AllocError>
    requires opening { IsOpening opening.now }
    requires sequence { 1 ≤ sequence }
    ensures moment { IfOk result (IsImageOf (opening_book opening.now) sequence) }
    ensures image { IfOk result IsImage }
    ensures short { IfOk result (λ image. length (spelled image) < 2 ^ 63) }
{
    let book = Book::new(alloc, opening)?;
    let image = image_of(alloc, &book, sequence);
    drop(book);
    image
}
