ghost use Rattle.std.specs.Prelude.{◌≡◌, Some, IfOk, IfErr, OnOk};
ghost use Rattle.std.specs.Option.{option_copied};
ghost use Rattle.ug_image.specs.Images.{IsImage};
ghost use Rattle.ug_rules.specs.Books.{AreSettings};
ghost use Rattle.ug_restart.specs.Starts.{IsSpent, boxes_saved, next_run};
ghost use Rattle.ug_restart.specs.Books.{HasNoFirst, HasNoNext, IsFirstStart, IsNextStart, MayGoOn};

use crate::compare::check_problem;
use crate::fault::StartFault;
use crate::opening::{check_gap, next_run};
use crate::start::Start;
use std::alloc::{AllocError, Global};
use ug_book::{Boxes, Opening};
use ug_checkpoint::{Found, Saver};
use ug_image::{Image, Saved};
use ug_lists::Items;
use ug_problem::{Problem, Shared};
use ug_rows::Point;
use ug_rules::Settings;

/// Returns the start of a new solve, under the run number after that of the image found.
pub fn first_start(
    alloc: Global,
    found: Option<&Found>,
    problem: Shared,
    settings: Settings,
) -> Result<Start, StartFault>
    requires { AreSettings settings }
    ensures made { IfOk result (IsFirstStart problem settings (option_copied found.entry)) }
    ensures room { OnOk result (¬ IsSpent (option_copied found.entry)) }
    ensures refused { IfErr result (HasNoFirst (option_copied found.entry)) }
{
    let run = match next_run(found) {
        Ok(run) => run,
        Err(fault) => {
            drop(problem);
            return Err(fault);
        }
    };
    let saver = Saver::new(found);
    match Opening::new(alloc, problem, run, settings) {
        Ok(opening) => Ok(Start { opening, saver }),
        Err(_) => Err(StartFault::Memory),
    }
}

/// Returns the start of a run that resumes from the image found.
pub fn next_start(
    alloc: Global,
    found: Found,
    problem: Shared,
    settings: Settings,
) -> Result<Start, StartFault>
    requires settings { AreSettings settings }
    requires image { IsImage found.image }
    ensures made { IfOk result (IsNextStart problem settings found) }
    ensures may { OnOk result (MayGoOn problem settings found) }
    ensures refused { IfErr result (HasNoNext problem settings found) }
{
    let run = match next_run_of(alloc, &found, problem.problem(), &settings) {
        Ok(run) => run,
        Err(fault) => {
            drop(found);
            drop(problem);
            return Err(fault);
        }
    };
    let saver = Saver::new(Some(&found));
    let Ok(kept) = kept_of(alloc, found) else {
        drop(problem);
        return Err(StartFault::Memory);
    };
    match problem.into_counted(alloc) {
        Ok(problem) => Ok(Start {
            opening: Opening {
                problem,
                run,
                best: kept.best,
                boxes: kept.boxes,
                settings,
            },
            saver,
        }),
        Err(_) => {
            drop(kept);
            Err(StartFault::Memory)
        }
    }
}

// Returns the run number with which a run may resume from the image found, under these settings.
fn next_run_of(
    alloc: Global,
    found: &Found,
    problem: &Problem,
    settings: &Settings,
) -> Result<u64, StartFault>
    ensures run { IfOk result (λ run. run ≡ next_run (Some found.now)) }
    ensures may { OnOk result (MayGoOn problem.now settings.now found.now) }
    ensures refused { IfErr result (HasNoNext problem.now settings.now found.now) }
{
    match check_problem(alloc, found.image.problem.problem(), problem) {
        Ok(()) => {}
        Err(fault) => return Err(fault),
    }
    match check_gap(found, settings) {
        Ok(()) => next_run(Some(found)),
        Err(fault) => Err(fault),
    }
}

// What a run takes from a checkpoint.
#[derive(Drop)]
struct Kept {
    best: Option<Point>,
    boxes: Boxes,
}

fn kept_of(alloc: Global, found: Found) -> Result<Kept, AllocError>
    ensures best { IfOk result (λ kept. kept.best ≡ found.image.best) }
    ensures boxes { IfOk result (λ kept. kept.boxes ≡ boxes_saved found.image.nodes) }
{
    let Found { image, .. } = found;
    let Image {
        problem,
        best,
        nodes,
        ..
    } = image;
    drop(problem);
    match boxes_of(alloc, nodes) {
        Ok(boxes) => Ok(Kept { best, boxes }),
        Err(error) => {
            drop(best);
            Err(error)
        }
    }
}

// Returns the boxes of the nodes.
fn boxes_of(alloc: Global, nodes: Saved) -> Result<Boxes, AllocError>
    ensures { IfOk result (λ boxes. boxes ≡ boxes_saved nodes) }
{
    let mut boxes = Items::new(alloc);
    for node in nodes.into_vec() {
        boxes.push(node.changes)?;
    }
    Ok(boxes)
}
