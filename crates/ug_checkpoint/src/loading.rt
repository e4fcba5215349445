ghost use Rattle.std.specs.Prelude.{IfOk, IfErr};
ghost use Rattle.ug_io.specs.Outside.{IsCountedBy};
ghost use Rattle.ug_disk.specs.Crashes.{Leaves};
ghost use Rattle.ug_checkpoint.specs.Causes.{load_cause};
ghost use Rattle.ug_checkpoint.specs.Runs.{CouldLeave};
ghost use Rattle.ug_checkpoint.specs.Recovery.{HasFound, IsRefused, IsCause, Recovered};

use crate::error::LoadError;
use crate::found::{Found, greater};
use crate::slots::loading::{Both, read_both};
use crate::stored::image_in;
use std::alloc::Global;
use ug_disk::{Disk, Slot};

/// Finds the last checkpoint: of the slots that are open the image with the larger sequence, and
/// none where both are shut. Both slots are synced first, so that nothing older is pending.
#[tactic(auto, using(crate::proofs::Causes::unread, crate::proofs::Causes::unfound))]
pub fn load<D: Disk>(alloc: Global, disk: &mut D) -> Result<Option<Found>, LoadError>
    ensures found { IfOk result (HasFound (D.seen disk.old).told (D.seen disk.new).told) }
    ensures refused { IfErr result (IsRefused (D.seen disk.old).told (D.seen disk.new).told) }
    ensures any_moment { Leaves (CouldLeave (D.seen disk.old).told)
        (D.seen disk.old).told (D.seen disk.new).told }
    ensures cause { IsCountedBy load_cause result
        (D.seen disk.old).faults (D.seen disk.new).faults }
{
    let both = match read_both(alloc, disk) {
        Ok(both) => both,
        Err(error) => return Err(LoadError::from(error)),
    };
    let found = recovered(alloc, &both);
    drop(both);
    match found {
        Ok(found) => Ok(found),
        Err(error) => Err(error),
    }
}

// What recovery finds in two slots.
fn recovered(alloc: Global, both: &Both) -> Result<Option<Found>, LoadError>
    ensures found { IfOk result (Recovered both.now.zero.items both.now.one.items) }
    ensures refused { IfErr result (IsCause both.now.zero.items both.now.one.items) }
{
    let zero = image_in(alloc, Slot::Zero, &both.zero)?;
    match image_in(alloc, Slot::One, &both.one) {
        Ok(one) => Ok(greater(zero, one)),
        Err(error) => {
            drop(zero);
            Err(error)
        }
    }
}
