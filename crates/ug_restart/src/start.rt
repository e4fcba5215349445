ghost use Rattle.std.specs.Prelude.{IfOk, IfErr};
ghost use Rattle.ug_io.specs.Outside.{IsCountedBy};
ghost use Rattle.ug_disk.specs.Crashes.{Leaves};
ghost use Rattle.ug_rules.specs.Books.{AreSettings};
ghost use Rattle.ug_restart.specs.Faults.{start_cause};
ghost use Rattle.ug_restart.specs.Starts.{BeginsAt, GoesOnFrom, IsBegun, IsGoneOn, IsNotBegun, IsNotGoneOn, IsSafeStart};
ghost use Rattle.ug_restart.specs.Openings.{IsFromFound, IsStart};

use crate::books::{first_start, next_start};
use crate::fault::StartFault;
use crate::opening::save_first;
use std::alloc::Global;
use ug_book::Opening;
use ug_checkpoint::{Saver, load};
use ug_disk::Disk;
use ug_problem::Shared;
use ug_rules::Settings;

/// What a run begins with, and the saver that saved its first image.
#[derive(Drop)]
pub struct Start {
    /// The state with which the run begins.
    pub opening: Opening,
    /// Saves the images of the run.
    pub saver: Saver,
}

/// Begins a new solve on the disk, whatever it has: with the root and no incumbent, under a run
/// number above that of the checkpoint there. An image of its book is acknowledged before the call
/// returns.
#[tactic(auto, using(crate::proofs::Causes::not_loaded, crate::proofs::Causes::no_first, crate::proofs::Causes::same_cause))]
pub fn begin<D: Disk>(
    alloc: Global,
    disk: &mut D,
    problem: Shared,
    settings: Settings,
) -> Result<Start, StartFault>
    requires { AreSettings settings }
    ensures started { IfOk result (IsStart
        (IsBegun problem settings (D.seen disk.old).told) (D.seen disk.new).told) }
    ensures found { IfOk result (IsFromFound (BeginsAt problem settings)
        (D.seen disk.old).told (D.seen disk.new).told) }
    ensures refused { IfErr result (IsNotBegun (D.seen disk.old).told (D.seen disk.new).told) }
    ensures any_moment { Leaves
        (IsSafeStart (D.seen disk.old).told (IsBegun problem settings (D.seen disk.old).told))
        (D.seen disk.old).told (D.seen disk.new).told }
    ensures cause { IsCountedBy start_cause result
        (D.seen disk.old).faults (D.seen disk.new).faults }
{
    let found = match load(alloc, disk) {
        Ok(found) => found,
        Err(error) => {
            drop(problem);
            return Err(StartFault::from(error));
        }
    };
    let started = first_start(alloc, found.as_ref(), problem, settings);
    drop(found);
    let mut start = match started {
        Ok(start) => start,
        Err(fault) => return Err(fault),
    };
    match save_first(alloc, disk, &start.opening, &mut start.saver) {
        Ok(()) => Ok(start),
        Err(fault) => {
            drop(start);
            Err(fault)
        }
    }
}

/// Resumes from the checkpoint on the disk, with its incumbent, its boxes and the gap of the
/// settings, under the next run number. An image of its book is acknowledged before the call
/// returns.
#[tactic(auto, using(crate::proofs::Causes::not_loaded, crate::proofs::Causes::no_next, crate::proofs::Causes::same_cause))]
pub fn restart<D: Disk>(
    alloc: Global,
    disk: &mut D,
    problem: Shared,
    settings: Settings,
) -> Result<Start, StartFault>
    requires { AreSettings settings }
    ensures started { IfOk result (IsStart
        (IsGoneOn problem settings (D.seen disk.old).told) (D.seen disk.new).told) }
    ensures found { IfOk result (IsFromFound (GoesOnFrom problem settings)
        (D.seen disk.old).told (D.seen disk.new).told) }
    ensures refused { IfErr result (IsNotGoneOn problem settings
        (D.seen disk.old).told (D.seen disk.new).told) }
    ensures any_moment { Leaves
        (IsSafeStart (D.seen disk.old).told (IsGoneOn problem settings (D.seen disk.old).told))
        (D.seen disk.old).told (D.seen disk.new).told }
    ensures cause { IsCountedBy start_cause result
        (D.seen disk.old).faults (D.seen disk.new).faults }
{
    let found = match load(alloc, disk) {
        Ok(Some(found)) => found,
        Ok(None) => {
            drop(problem);
            return Err(StartFault::NoCheckpoint);
        }
        Err(error) => {
            drop(problem);
            return Err(StartFault::from(error));
        }
    };
    let mut start = match next_start(alloc, found, problem, settings) {
        Ok(start) => start,
        Err(fault) => return Err(fault),
    };
    match save_first(alloc, disk, &start.opening, &mut start.saver) {
        Ok(()) => Ok(start),
        Err(fault) => {
            drop(start);
            Err(fault)
        }
    }
}
