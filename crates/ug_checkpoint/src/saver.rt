ghost use Rattle.std.specs.Prelude.{◌≡◌, ◌<◌, ◌^◌, Option, None, Some, MatchOption, length, OnOk, OnErr, IsErrOf};
ghost use Rattle.std.specs.Option.{option_copied};
ghost use Rattle.ug_io.specs.Outside.{IsCountedBy};
ghost use Rattle.ug_disk.specs.Histories.{History};
ghost use Rattle.ug_disk.specs.Crashes.{Leaves};
ghost use Rattle.ug_image.specs.Images.{IsImage};
ghost use Rattle.ug_image.specs.Spelling.{spelled};
ghost use Rattle.ug_checkpoint.specs.Causes.{save_cause};
ghost use Rattle.ug_checkpoint.specs.Recovery.{HasFound};

use crate::body::Body;
use crate::error::SaveError;
use crate::found::Found;
use crate::slots::slot_pair::SlotPair;
use std::alloc::{AllocError, Global};
use ug_disk::Disk;
use ug_image::Image;
use ug_io::zeros;

/// How many bytes are written at once.
const BLOCK: usize = 65_536;

/// Saves images, each over the one before the last.
#[derive(Drop)]
pub struct Saver {
    slot_pair: SlotPair,
    sequence: u64,
}

impl Saver {
    ghost use Rattle.ug_checkpoint.specs.Savers.{sequence_of, last_slot, next_slot};
    ghost use Rattle.ug_checkpoint.specs.Savers.{IsKept, IsSafe, IsLeftAlone, IsWritten, Finds};

    /// A saver of the slots as a load left them that found this.
    pub fn new(found: Option<&Found>) -> Saver
        ensures sequence { MatchOption found.entry (sequence_of result ≡ 0)
            (λ found. sequence_of result ≡ found.now.image.sequence) }
        ensures last { MatchOption found.entry (last_slot result ≡ None)
            (λ found. last_slot result ≡ Some found.now.slot) }
        ensures kept { (old new : Option History)
            → HasFound old new (option_copied found.entry) → IsKept result new }
    {
        match found {
            Some(found) => Saver {
                slot_pair: SlotPair::new(Some(found.slot)),
                sequence: found.image.sequence,
            },
            None => Saver {
                slot_pair: SlotPair::new(None),
                sequence: 0,
            },
        }
    }

    /// The sequence of the last acknowledged image, 0 before any.
    pub fn sequence(&self) -> u64
        ensures { result ≡ sequence_of self.now }
    {
        self.sequence
    }

    /// Saves an image. At `Ok` it is acknowledged: each crash leaves it from then on. At `Err` the
    /// last acknowledged one stays.
    pub fn save<D: Disk>(
        &mut self,
        alloc: Global,
        disk: &mut D,
        image: &Image,
    ) -> Result<(), SaveError>
        requires kept { IsKept self.old (D.seen disk.old).told }
        requires image { IsImage image.now }
        requires next { sequence_of self.old < image.now.sequence }
        requires fits { length (spelled image.now) < 2 ^ 63 }

        // At each moment, also where it fails, recovery finds the last acknowledged image, the new
        // one, or what it could find before.
        ensures any_moment { Leaves (IsSafe (last_slot self.old) (D.seen disk.old).told
            (record { slot = next_slot self.old; image = image.now }))
            (D.seen disk.old).told (D.seen disk.new).told }

        ensures acknowledged { OnOk result (Finds (D.seen disk.new).told
            (record { slot = next_slot self.old; image = image.now })) }
        ensures written { OnOk result
            (IsWritten (next_slot self.old) image.now (D.seen disk.new).told) }
        ensures alone { IsLeftAlone (next_slot self.old)
            (D.seen disk.old).told (D.seen disk.new).told }
        ensures kept { IsKept self.new (D.seen disk.new).told }
        ensures last { OnOk result (last_slot self.new ≡ Some (next_slot self.old)) }
        ensures sequence { OnOk result (sequence_of self.new ≡ image.now.sequence) }
        ensures err_last { OnErr result (last_slot self.new ≡ last_slot self.old) }
        ensures err_sequence { OnErr result (sequence_of self.new ≡ sequence_of self.old) }

        ensures memory { IsErrOf result SaveError.Memory
            → (D.seen disk.new).told ≡ (D.seen disk.old).told }
        ensures cause { IsCountedBy save_cause result
            (D.seen disk.old).faults (D.seen disk.new).faults }
    {
        let mut buffer = zeros(alloc, BLOCK)?;
        let mut body = match Body::new(alloc, image) {
            Ok(body) => body,
            Err(error) => {
                drop(buffer);
                return Err(SaveError::from(error));
            }
        };
        let saved = self.slot_pair.save(disk, &mut body, &mut buffer);
        drop(body);
        drop(buffer);
        saved?;
        self.sequence = image.sequence;
        Ok(())
    }
}
