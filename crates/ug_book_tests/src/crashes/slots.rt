//! Disks, problems and settings for tests.

ghost use Rattle.std.specs.Prelude.{Some, IfOk};
ghost use Rattle.ug_disk.specs.Memories.{history_of};
ghost use Rattle.ug_checkpoint.specs.Runs.{AreSynced};
ghost use Rattle.ug_rules.specs.Books.{AreSettings};

use std::alloc::{AllocError, Global};
use ug_branch::Base;
use ug_disk::{MemoryDisk, Script};
use ug_lists::Items;
use ug_problem::{Problem, ProblemError};
use ug_rows::Objective;
use ug_rules::Settings;

/// A slot with the image of a run of a problem that has neither columns nor rows: the gate, 104
/// bytes, version 3, the run, the sequence, a record of 30 bytes, no best point, no reports, the
/// gap, and one node, whose name is of ticket 0 and hand 0, without changes.
pub fn slot_of(run: u8, sequence: u8, gap: u8) -> [u8; 113] {
    let mut slot = [0u8; 113];
    slot[0] = 1;
    slot[8] = 104;
    slot[9] = 3;
    slot[17] = run;
    slot[25] = sequence;
    slot[29] = 30;
    slot[84] = gap;
    slot[92] = 1;
    slot
}

/// Which calls of a disk fail, and after which of them it stops.
pub fn script_of(alloc: Global, failing: &[u64], stopping: &[u64]) -> Result<Script, AllocError> {
    let failing = failing.to_vec(alloc)?;
    match stopping.to_vec(alloc) {
        Ok(stopping) => Ok(Script { failing, stopping }),
        Err(error) => {
            drop(failing);
            Err(error)
        }
    }
}

/// A disk with these bytes in its slots, whose calls fail and stop it as the script says.
pub fn disk_of(
    alloc: Global,
    zero: &[u8],
    one: &[u8],
    script: Script,
) -> Result<MemoryDisk, AllocError>
    ensures { IfOk result (λ disk. AreSynced (Some (history_of disk))) }
{
    let zero = zero.to_vec(alloc)?;
    let one = one.to_vec(alloc)?;
    Ok(MemoryDisk::new(alloc, zero, one, script))
}

/// A disk with these bytes in slot 0 and none in slot 1, which stops after these of its calls.
pub fn disk_with(alloc: Global, zero: &[u8], stopping: &[u64]) -> Result<MemoryDisk, AllocError>
    ensures { IfOk result (λ disk. AreSynced (Some (history_of disk))) }
{
    disk_of(alloc, zero, &[], script_of(alloc, &[], stopping)?)
}

/// A problem with neither columns nor rows, whose objective is 0 or, if that is asked for, -1.
pub fn nothing(alloc: Global, is_other: bool) -> Result<Problem, ProblemError> {
    let objective = Objective {
        terms: Items::new(alloc),
        constant: if is_other { -1 } else { 0 },
        maximise: false,
        scale: 0,
    };
    Problem::new(alloc, Items::new(alloc), Items::new(alloc), objective)
}

/// One solver, and this gap.
pub fn settings(gap: u8) -> Settings
    ensures { AreSettings result }
{
    Settings {
        solvers: 1,
        racing: false,
        base: Base::Bound,
        low: 1,
        high: 2,
        every: 1,
        limit: 1000,
        winner: 20,
        gap: i128::from(gap),
    }
}
