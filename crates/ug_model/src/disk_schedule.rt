ghost use Rattle.std.specs.Prelude.{◌≡◌, Some, All, IfErr, IfOk};
ghost use Rattle.ug_disk.specs.Memories.{history_of};
ghost use Rattle.ug_checkpoint.specs.Savers.{IsKept};
ghost use Rattle.ug_laws.specs.DiskEvents.{IsDiskEvent};
ghost use Rattle.ug_model.specs.Machines.{store};
ghost use Rattle.ug_laws.specs.Machines.{beginning};
ghost use Rattle.ug_model.specs.Machines.{world_of};
ghost use Rattle.ug_laws.specs.DiskLaws.{HasBegun};
ghost use Rattle.ug_model.specs.DiskPlays.{HonestLeaveOnDisk, IsLeftOf, IsPlayedOnDisk, IsStoppedOnDisk};

use crate::halt::Halted;
use crate::machine::Machine;
use crate::schedule::{Decisions, Replies};
use std::alloc::Global;
use ug_book::Book;
use ug_checkpoint::Saver;
use ug_disk::MemoryDisk;
use ug_laws::DiskEvent;
use ug_lists::Items;
use ug_restart::Attempt;

/// What became of each save, the earliest first.
pub type Attempts = Items<Attempt>;

/// Result of a schedule: the book and the saver of the last run, the disk, the answers to the
/// reports received, how far each decision went, and the result of each save.
#[derive(Drop)]
pub struct PlayedDisk {
    pub book: Book,
    pub saver: Saver,
    pub disk: MemoryDisk,
    pub replies: Replies,
    pub decisions: Decisions,
    pub attempts: Attempts,
}

/// Why a schedule was not played to its end, after `done` events, and the state then.
#[derive(Drop)]
pub struct PlayDiskFault {
    pub why: Halted,
    pub done: usize,
    pub left: PlayedDisk,
}

/// Plays a schedule of what happens between a coordinator and its solvers, of saves, crashes and
/// restarts. A restart that is refused leaves no run, and the schedule stops there unless another
/// restart follows.
///
/// The result of each decision and save is recorded, and a save or a restart fails for the disk
/// only if the disk failed. As long as solvers are honest each better point lies in a primitive
/// node of the book, and in a node of an image that recovery finds whatever a crash leaves, at each
/// moment of a save too.
pub fn play_disk(
    alloc: Global,
    book: Book,
    saver: Saver,
    disk: MemoryDisk,
    events: &[DiskEvent],
) -> Result<PlayedDisk, PlayDiskFault>
    requires kept { IsKept saver (Some (history_of disk)) }
    requires events { All IsDiskEvent events.now }
    ensures played { IfOk result
        (IsPlayedOnDisk (beginning book (store saver disk)) events.now) }
    ensures stopped { IfErr result
        (IsStoppedOnDisk (beginning book (store saver disk)) events.now) }
    ensures honest { HasBegun (beginning book (store saver disk))
        → HonestLeaveOnDisk (beginning book (store saver disk)) events.now result }
{
    let mut machine = Machine::new(alloc, book, saver, disk);
    for (done, event) in events.iter().enumerate() {
        match machine.happen(event) {
            Ok(()) => {}
            Err(why) => return Err(stop(machine, why, done)),
        }
    }
    match machine.refused() {
        None => Ok(machine.end()),
        Some(fault) => Err(stop(machine, Halted::Refused(fault), events.len())),
    }
}

// Returns the state of a schedule that was stopped after this many events.
fn stop(machine: Machine, why: Halted, done: usize) -> PlayDiskFault
    ensures why { result.why ≡ why }
    ensures done { result.done ≡ done }
    ensures left { IsLeftOf (world_of machine) result.left }
{
    PlayDiskFault {
        why,
        done,
        left: machine.end(),
    }
}
