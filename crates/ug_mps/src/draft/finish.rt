ghost use Rattle.std.specs.Prelude.{◌≡◌, ℕ, List, ◌∷◌, Option, None, MatchResult};
ghost use Rattle.ug_lines.specs.declared.section.Section.TheVariants.{Endata};
ghost use Rattle.ug_problem.specs.Instances.{instance_of};
ghost use Rattle.ug_drafts.specs.Bounds.{IsBox};
ghost use Rattle.ug_mps.specs.Drafts.{Drafts};
ghost use Rattle.ug_mps.specs.Entries.{Entry, header};
ghost use Rattle.ug_mps.specs.Finish.{IsEndFault, AreStated};
ghost use Rattle.ug_mps.specs.Reads.{end_fault};
ghost use Rattle.ug_mps.specs.Stated.{stated};

use crate::draft::Draft;
use std::alloc::Global;
use ug_drafts::{MpsError, RowsAndObjective, make_columns, make_rows};
use ug_lists::Items;
use ug_problem::{Column, Problem, ProblemError};

// The problem of these parts, which a good history without faults states: so only memory can be
// wanting.
fn problem_of(
    alloc: Global,
    columns: Vec<Column>,
    parts: RowsAndObjective,
) -> Result<Problem, MpsError>
    requires { (boxed : Option ℕ) × (h : List Entry)
        × AreStated boxed h (instance_of columns.items parts.rows parts.objective) }
    ensures { MatchResult result
        (λ p. p ≡ instance_of columns.items parts.rows parts.objective)
        (λ e. e ≡ MpsError.Memory) }
{
    let columns = Items::from_vec(columns);
    match Problem::new(alloc, columns, parts.rows, parts.objective) {
        Ok(problem) => Ok(problem),
        Err(error) => match error {
            ProblemError::Memory => Err(MpsError::Memory),
            _ => unreachable!(),
        },
    }
}

impl Draft {
    /// The problem that the lines state once the latest has been ENDATA, or the first fault of a
    /// column or a row. `boxed` is the bound that infinite bounds have.
    pub fn finish(self, boxed: Option<u32>) -> Result<Problem, MpsError>
        requires ended { (h : List Entry) × Drafts (header Endata ∷ h) self }
        requires boxed { IsBox boxed }
        ensures { (h : List Entry) → Drafts (header Endata ∷ h) self
            → MatchResult result
            (λ p. (end_fault boxed h ≡ None) × (p ≡ stated boxed h)) (IsEndFault boxed h) }
    {
        let Draft {
            alloc,
            rows,
            columns,
            maximise,
            begun,
            set,
            ..
        } = self;
        drop(begun);
        drop(set);
        let (names, drafts) = columns.into_parts();
        let columns = match make_columns(alloc, boxed, names, drafts) {
            Ok(columns) => columns,
            Err(error) => {
                drop(rows);
                return Err(error);
            }
        };
        let (names, drafts) = rows.into_parts();
        match make_rows(alloc, maximise, names, drafts) {
            Ok(parts) => problem_of(alloc, columns, parts),
            Err(error) => {
                drop(columns);
                Err(error)
            }
        }
    }
}
