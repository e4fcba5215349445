ghost use Rattle.std.specs.Prelude.{◌≡◌, IfSome, IsNone};
ghost use Rattle.ug_checkpoint.specs.Savers.{IsKept};
ghost use Rattle.ug_rules.specs.State.{BookState};
ghost use Rattle.ug_rules.specs.Books.{IsSoundBook};
ghost use Rattle.ug_book.specs.Openings.{IsOpening, opening_book};
ghost use Rattle.ug_disk.specs.Crashes.{Leaves};
ghost use Rattle.ug_restart.specs.Saves.{missed_of, opening_of, saver_of, unsaved_of};
ghost use Rattle.ug_restart.specs.Moments.{AllCovered, FindsIn, IsCoveredNow, IsFoundNow, IsOfRun};
ghost use Rattle.ug_restart.specs.Going.{GoesOn, time};
ghost use Rattle.ug_restart.specs.Outcomes.{IsMissedByFaults, IsSavedOrCounted, IsUntouched};
ghost use Rattle.ug_threads.specs.Outcomes.{HasEnded, IsSavedLast};

use crate::ending::end_of;
use crate::snapshot_sink::{Saving, Silent};
use crate::together::solve;
use std::sync::Wait;
use std::thread::Threads;
use ug_book::Opening;
use ug_checkpoint::Saver;
use ug_disk::Disk;
use ug_restart::{End, Host, Observer, Outcome, Saves, save_end, tell_begin};

/// Solves the open nodes of the opening, with one thread for each of its solvers. All threads have
/// ended when it returns. With a saver it saves the snapshots that the workers send, and the final
/// book.
#[tactic(auto, using(ug_restart::proofs::Outcomes::none_missed))]
pub fn solve_threads<R: Threads + Wait + Sync, D: Disk, O: Observer>(
    host: &Host<'_, R, O>,
    opening: &Opening,
    saver: Option<Saver>,
    disk: &mut D,
) -> Outcome
    requires opening { IsOpening opening.now }
    requires kept { IfSome saver (λ s. IsKept s (D.seen disk.old).told) }

    // The book at the end is the replay of a history from the opening's.
    ensures ended { HasEnded (opening_book opening.now) result.end }

    // The state of the disk.
    ensures untouched { IsNone saver → IsUntouched result (D.seen disk.old) (D.seen disk.new) }
    ensures saved { IfSome saver (λ s. IsSavedOrCounted result (D.seen disk.new).told) }
    ensures any_moment { IfSome saver (λ s. IsSoundBook (opening_book opening.now)
        → IsCoveredNow s (D.seen disk.old).told
        → AllCovered (D.seen disk.old).told (D.seen disk.new).told) }
    ensures found { IfSome saver (λ s.
        IsFoundNow (IsOfRun (opening_book opening.now)) s (D.seen disk.old).told
        → Leaves (FindsIn (IsOfRun (opening_book opening.now)))
        (D.seen disk.old).told (D.seen disk.new).told) }
    ensures missed { IsMissedByFaults result (D.seen disk.old) (D.seen disk.new) }
{
    tell_begin(host.observer, host.alloc, opening);
    match saver {
        None => silently(host, opening),
        Some(saver) => with_saver(host, opening, saver, disk),
    }
}

// Returns the outcome if memory runs out before a worker has begun.
#[tactic(auto, using(crate::proofs::Endings::none_ended))]
fn wanting() -> Outcome
    ensures ended { (given : BookState) → HasEnded given result.end }
    ensures end { result.end ≡ End.Memory }
    ensures missed { result.missed ≡ 0 }
    ensures unsaved { result.unsaved ≡ 0 }
{
    Outcome {
        end: End::Memory,
        missed: 0,
        unsaved: 0,
        last: None,
    }
}

// Solves without a saver.
fn silently<R: Threads + Wait + Sync, O: Observer>(
    host: &Host<'_, R, O>,
    opening: &Opening,
) -> Outcome
    requires { IsOpening opening.now }
    ensures ended { HasEnded (opening_book opening.now) result.end }
    ensures missed { result.missed ≡ 0 }
    ensures unsaved { result.unsaved ≡ 0 }
{
    let solved = solve(host, opening, None, Silent);
    Outcome {
        end: end_of(solved.book),
        missed: 0,
        unsaved: 0,
        last: None,
    }
}

// Solves with a saver.
#[tactic(auto, using(ug_restart::proofs::Outcomes::still_covered, ug_restart::proofs::Outcomes::still_found, ug_restart::proofs::Outcomes::covered_begun, ug_restart::proofs::Outcomes::found_begun, ug_restart::proofs::Outcomes::none_missed))]
fn with_saver<R: Threads + Wait + Sync, D: Disk, O: Observer>(
    host: &Host<'_, R, O>,
    opening: &Opening,
    saver: Saver,
    disk: &mut D,
) -> Outcome
    requires opening { IsOpening opening.now }
    requires kept { IsKept saver (D.seen disk.old).told }
    ensures ended { HasEnded (opening_book opening.now) result.end }
    ensures saved { IsSavedOrCounted result (D.seen disk.new).told }
    ensures any_moment { IsSoundBook (opening_book opening.now)
        → IsCoveredNow saver (D.seen disk.old).told
        → AllCovered (D.seen disk.old).told (D.seen disk.new).told }
    ensures found { IsFoundNow (IsOfRun (opening_book opening.now)) saver (D.seen disk.old).told
        → Leaves (FindsIn (IsOfRun (opening_book opening.now)))
        (D.seen disk.old).told (D.seen disk.new).told }
    ensures missed { IsMissedByFaults result (D.seen disk.old) (D.seen disk.new) }
{
    let Ok(own) = opening.copy() else {
        return wanting();
    };
    let saves = Saves::new(saver, own);
    saving(host, opening, saves, disk)
}

// Solves, and saves with `saves`.
#[tactic(auto, using(ug_restart::proofs::Outcomes::time_covered, ug_restart::proofs::Outcomes::time_missed))]
fn saving<R: Threads + Wait + Sync, D: Disk, O: Observer>(
    host: &Host<'_, R, O>,
    opening: &Opening,
    saves: Saves,
    disk: &mut D,
) -> Outcome
    requires opening { IsOpening opening.now }
    requires saves { opening_of saves ≡ opening.now }
    requires none { (missed_of saves ≡ 0) × (unsaved_of saves ≡ 0) }
    requires kept { IsKept (saver_of saves) (D.seen disk.old).told }
    ensures ended { HasEnded (opening_book opening.now) result.end }
    ensures saved { IsSavedOrCounted result (D.seen disk.new).told }
    ensures any_moment { IsSoundBook (opening_book opening.now)
        → IsCoveredNow (saver_of saves) (D.seen disk.old).told
        → AllCovered (D.seen disk.old).told (D.seen disk.new).told }
    ensures found { IsFoundNow (IsOfRun (opening_book opening.now)) (saver_of saves)
        (D.seen disk.old).told
        → Leaves (FindsIn (IsOfRun (opening_book opening.now)))
        (D.seen disk.old).told (D.seen disk.new).told }
    ensures missed { IsMissedByFaults result (D.seen disk.old) (D.seen disk.new) }
{
    let alloc = host.alloc;
    let sink = Saving { alloc, saves, disk };
    let concluded = conclude(host, opening, sink);
    let (outcome, back) = parted(concluded);
    take_back(back);
    outcome
}

// Returns the outcome, and the borrowed disk.
fn parted<'a, D>(concluded: Concluded<'a, D>) -> (Outcome, &'a mut D)
    ensures outcome { result.0 ≡ concluded.entry.outcome }
    ensures name { result.1.ghost_name ≡ concluded.entry.kept.disk.ghost_name }
    ensures disk { result.1.now ≡ concluded.entry.kept.disk.now }
{
    let Concluded { outcome, kept } = concluded;
    let Saving { saves, disk, .. } = kept;
    drop(saves);
    (outcome, disk)
}

// Does nothing. It is the last use of the borrowed disk.
fn take_back<D>(disk: &mut D)
    ensures { disk.new ≡ disk.old }
{}

// The outcome, and what was saved.
#[derive(Drop)]
struct Concluded<'a, D> {
    outcome: Outcome,
    kept: Saving<'a, D>,
}

// Solves, and saves the final book.
fn conclude<'a, R: Threads + Wait + Sync, D: Disk, O: Observer>(
    host: &Host<'_, R, O>,
    opening: &Opening,
    sink: Saving<'a, D>,
) -> Concluded<'a, D>
    requires opening { IsOpening opening.now }
    requires saves { opening_of sink.saves ≡ opening.now }
    requires kept { IsKept (saver_of sink.saves) (D.seen sink.disk.now).told }
    ensures name { result.kept.disk.ghost_name ≡ sink.entry.disk.ghost_name }
    ensures ended { HasEnded (opening_book opening.now) result.outcome.end }
    ensures saved { IsSavedOrCounted result.outcome (D.seen result.kept.disk.now).told }
    ensures missed { result.outcome.missed ≡ missed_of result.kept.saves }
    ensures last { IsSavedLast (time sink.entry.saves (D.seen sink.entry.disk.now))
        result.outcome (time result.kept.saves (D.seen result.kept.disk.now)) }
    ensures goes_on { GoesOn (IsSoundBook (opening_book opening.now)) (Unit {0})
        (time sink.entry.saves (D.seen sink.entry.disk.now))
        (time result.kept.saves (D.seen result.kept.disk.now)) }
{
    let alloc = host.alloc;
    let every = Some(opening.settings.every);
    let solved = solve(host, opening, every, sink);
    let end = end_of(solved.book);
    let Saving {
        mut saves,
        disk,
        ..
    } = solved.sink;
    let last = save_end(alloc, disk, &mut saves, &end);
    let missed = saves.missed();
    let unsaved = saves.unsaved();
    Concluded {
        outcome: Outcome {
            end,
            missed,
            unsaved,
            last,
        },
        kept: Saving { alloc, saves, disk },
    }
}
