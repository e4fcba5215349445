ghost use Rattle.std.specs.Prelude.{◌≡◌, Some};
ghost use Rattle.ug_disk.specs.Memories.{history_of};
ghost use Rattle.ug_image.specs.Images.{IsImage};
ghost use Rattle.ug_checkpoint.specs.Savers.{IsKept};
ghost use Rattle.ug_laws.specs.Saves.{IsAttempt};
ghost use Rattle.ug_model.specs.Machines.{store};

use std::alloc::Global;
use ug_checkpoint::{SaveError, Saver};
use ug_disk::MemoryDisk;
use ug_image::{Image, length};
use ug_restart::Attempt;

/// Saves an image under the next sequence, and returns what became of it. One of 2^63 bytes or
/// more, which no memory holds, is not saved, nor is one after the last sequence.
pub fn save(alloc: Global, disk: &mut MemoryDisk, saver: &mut Saver, image: &mut Image) -> Attempt
    requires kept { IsKept saver.old (Some (history_of disk.old)) }
    requires image { IsImage image.old }
    ensures same { image.new ≡ record image.old { sequence = image.new.sequence } }
    ensures became { IsAttempt result
        (store saver.old disk.old) image.new (store saver.new disk.new) }
    ensures kept { IsKept saver.new (Some (history_of disk.new)) }
    ensures image { IsImage image.new }
{
    let last = saver.sequence();
    if last == u64::MAX {
        return Attempt::Unsaved;
    }
    image.sequence = last + 1;
    if length(image) >= 1 << 63 {
        return Attempt::Unsaved;
    }
    match saver.save(alloc, disk, image) {
        Ok(()) => Attempt::Saved,
        Err(SaveError::Memory) => Attempt::Unsaved,
        Err(SaveError::Fault) => Attempt::Missed,
    }
}
