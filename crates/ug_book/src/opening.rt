ghost use Rattle.std.specs.Prelude.{◌≡◌, ◌↔◌, ◌<◌, [], ◌∷◌, IfOk, IsTrue};
ghost use Rattle.std.specs.Option.{option_copied};
ghost use Rattle.ug_rules.specs.Books.{AreSettings};
ghost use Rattle.ug_book.specs.Openings.{IsOpening, whole};

use std::alloc::{AllocError, Global};
use ug_lists::{Items, Same};
use ug_nodes::Changes;
use ug_problem::Shared;
use ug_rows::Point;
use ug_rules::Settings;

/// Boxes, each as its changes against the root's.
pub type Boxes = Items<Changes>;

/// What a run begins with, and what its book is made of.
#[derive(Drop)]
pub struct Opening {
    pub problem: Shared,
    pub run: u64,
    /// The incumbent, if there is one.
    pub best: Option<Point>,
    /// The boxes that are left to be solved.
    pub boxes: Boxes,
    pub settings: Settings,
}

impl Opening {
    /// What a run of the whole problem begins with: the root is left, and there is no incumbent.
    /// The problem is in one place for all that hold it.
    pub fn new(
        alloc: Global,
        problem: Shared,
        run: u64,
        settings: Settings,
    ) -> Result<Opening, AllocError>
        ensures made { IfOk result (λ opening. opening ≡ whole problem run settings) }
        ensures makes { 0 < run → AreSettings settings → IfOk result IsOpening }
    {
        let problem = problem.into_counted(alloc)?;
        match root_alone(alloc) {
            Ok(boxes) => Ok(Opening {
                problem,
                run,
                best: None,
                boxes,
                settings,
            }),
            Err(error) => {
                drop(problem);
                Err(error)
            }
        }
    }

    /// A copy, which shares the problem where that is in one place.
    pub fn copy(&self) -> Result<Opening, AllocError>
        ensures { IfOk result (λ copy. copy ≡ self.now) }
    {
        let boxes = self.boxes.clone()?;
        let best = match copied(self.best.as_ref()) {
            Ok(best) => best,
            Err(error) => {
                drop(boxes);
                return Err(error);
            }
        };
        match self.problem.share() {
            Ok(problem) => Ok(Opening {
                problem,
                run: self.run,
                best,
                boxes,
                settings: self.settings,
            }),
            Err(error) => {
                drop(best);
                drop(boxes);
                Err(error)
            }
        }
    }

    /// Whether another is the same. It takes no memory.
    pub fn is(&self, other: &Opening) -> bool
        ensures { IsTrue result ↔ (self.now ≡ other.now) }
    {
        self.run == other.run
            && is_same_settings(self.settings, other.settings)
            && self.best.is(&other.best)
            && self.boxes.is(&other.boxes)
            && self.problem.problem().is(other.problem.problem())
    }
}

/// A copy of a point that is lent, if one is.
pub fn copied(point: Option<&Point>) -> Result<Option<Point>, AllocError>
    ensures { IfOk result (λ copy. copy ≡ option_copied point.entry) }
{
    match point {
        Some(point) => Ok(Some(point.clone()?)),
        None => Ok(None),
    }
}

// The root box alone.
fn root_alone(alloc: Global) -> Result<Boxes, AllocError>
    ensures { IfOk result (λ boxes. boxes ≡ [] ∷ []) }
{
    let mut boxes = Items::new(alloc);
    boxes.push(Changes::new(Vec::new(alloc)))?;
    Ok(boxes)
}

fn is_same_settings(a: Settings, b: Settings) -> bool
    ensures { IsTrue result ↔ (a ≡ b) }
{
    a == b
}
