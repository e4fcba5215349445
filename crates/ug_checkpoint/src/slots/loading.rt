ghost use Rattle.std.specs.Prelude.{IfOk, OnOk};
ghost use Rattle.ug_io.specs.Outside.{IsCounted, IsCountedBy};
ghost use Rattle.ug_disk.specs.Causes.{read_cause};
ghost use Rattle.ug_disk.specs.Crashes.{Leaves};
ghost use Rattle.ug_checkpoint.specs.Runs.{Have, Settles, CouldLeave};

use std::alloc::Global;
use ug_disk::{Disk, ReadError, Slot, read_all};
use ug_io::Failed;

/// What the two slots have.
#[derive(Drop)]
pub struct Both {
    pub zero: Vec<u8>,
    pub one: Vec<u8>,
}

/// Syncs both slots, slot 0 first, and reads all that they have.
pub fn read_both<D: Disk>(alloc: Global, disk: &mut D) -> Result<Both, ReadError>
    ensures have { IfOk result (λ both.
        Have (D.seen disk.new).told both.zero.items both.one.items) }
    ensures could { IfOk result (λ both.
        CouldLeave (D.seen disk.old).told both.zero.items both.one.items) }
    ensures any_moment { Leaves (CouldLeave (D.seen disk.old).told)
        (D.seen disk.old).told (D.seen disk.new).told }
    ensures cause { IsCountedBy read_cause result
        (D.seen disk.old).faults (D.seen disk.new).faults }
{
    let Ok(()) = sync_both(disk) else {
        return Err(ReadError::Fault);
    };
    let zero = read_all(alloc, disk, Slot::Zero)?;
    let one = read_all(alloc, disk, Slot::One)?;
    Ok(Both { zero, one })
}

// Syncs both slots.
fn sync_both<D: Disk>(disk: &mut D) -> Result<(), Failed>
    ensures settled { OnOk result (Settles (D.seen disk.old).told (D.seen disk.new).told) }
    ensures any_moment { Leaves (CouldLeave (D.seen disk.old).told)
        (D.seen disk.old).told (D.seen disk.new).told }
    ensures cause { IsCounted result (D.seen disk.old).faults (D.seen disk.new).faults }
{
    disk.sync(Slot::Zero)?;
    disk.sync(Slot::One)?;
    Ok(())
}
