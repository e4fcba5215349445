ghost use Rattle.std.specs.Prelude.{◌≡◌, IsNone, None};
ghost use Rattle.ug_top.specs.Left.{best_of};
ghost use Rattle.ug_top.specs.Outside.{seen_if};
ghost use Rattle.ug_top.specs.Plans.{IsPlannedGen};
ghost use Rattle.ug_top.specs.Solved.{KeepsCovered};
ghost use Rattle.ug_top.specs.Ends.{AreGenLines, IsLeftAlone, IsStored, status_of, text_of};

use crate::ended::Ended;
use crate::one_run::solve_new;
use crate::outcome::tell_end;
use crate::settings::settings_made;
use std::sync::Wait;
use std::thread::Threads;
use ug_cli::Gen;
use ug_disk::Disk;
use ug_gen::make;
use ug_io::Crew;
use ug_problem::Shared;
use ug_restart::{Host, Observer};

/// Makes the instance of the plan and solves it. The disk is left alone.
pub fn run_made<R: Threads + Wait + Sync, D: Disk, O: Observer, C: Crew + Drop>(
    host: &Host<'_, R, O>,
    asked: &Gen,
    disk: &mut D,
    crew: &mut Option<C>,
) -> Ended
    requires planned { IsPlannedGen asked.now }
    requires threads { IsNone (seen_if C.seen crew.old) }
    ensures lines { AreGenLines asked.now (D.seen disk.old) (D.seen disk.new)
        (status_of result) (text_of result) }
    ensures stored { IsStored (KeepsCovered (D.seen disk.old) (D.seen disk.new))
        (D.seen disk.old) (D.seen disk.new) (status_of result) }
    ensures alone { IsLeftAlone (D.seen disk.old) (D.seen disk.new) }
    ensures threads { IsNone (seen_if C.seen crew.new) }
    ensures best { best_of result ≡ None }
{
    let Ok(problem) = make(host.alloc, asked.seed, asked.size) else {
        return Ended::Memory;
    };
    let settings = settings_made(asked.solvers);
    let outcome = solve_new(host, crew, Shared::own(problem), settings, disk);
    let ended = tell_end(host.alloc, &outcome);
    drop(outcome);
    ended
}
