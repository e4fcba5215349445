ghost use Rattle.std.specs.Prelude.{◌≡◌, [], All, None, Some, MatchResult};
ghost use Rattle.std.specs.List.{zip};
ghost use Rattle.ug_drafts.specs.FirstFaults.{IsOf, first_fault};
ghost use Rattle.ug_drafts.specs.Made.{HasDecimals, row_fault_kept, rows_and_objective, and_row};

use crate::fault::{Kind, MpsError, MpsFault};
use crate::made::make;
use crate::row::RowDraft;
use std::alloc::Global;
use std::mem;
use ug_lists::{Items, Text};
use ug_problem::NamedRows;
use ug_rows::{Objective, Terms};

/// The rows and the objective of the problem.
#[derive(Drop)]
pub struct RowsAndObjective {
    pub rows: NamedRows,
    pub objective: Objective,
}

impl RowsAndObjective {
    // No rows, and the objective 0.
    fn new(alloc: Global, maximise: bool) -> RowsAndObjective
        ensures { result ≡ rows_and_objective maximise [] }
    {
        RowsAndObjective {
            rows: Items::new(alloc),
            objective: Objective {
                terms: Terms::new(alloc),
                constant: 0,
                maximise,
                scale: 0,
            },
        }
    }

    // Takes the next row, or reports its fault. A row that is ignored is passed over.
    fn take(
        &mut self,
        alloc: Global,
        maximise: bool,
        name: Text,
        draft: RowDraft,
    ) -> Result<(), MpsError>
        requires { HasDecimals draft }
        ensures { MatchResult result
            (λ _. (row_fault_kept (name, draft) ≡ None)
            × (self.new ≡ and_row maximise self.old (name, draft)))
            (IsOf (row_fault_kept (name, draft))) }
    {
        if draft.role.is_ignored() {
            drop(name);
            drop(draft);
            return Ok(());
        }
        let line = draft.line;
        let is_objective = draft.role.is_objective();
        let making = make(alloc, &draft);
        drop(draft);
        let made = match making {
            Ok(Some(made)) => made,
            Ok(None) => {
                return Err(MpsError::Fault(MpsFault {
                    line,
                    kind: Kind::TooWide,
                    word: Some(name),
                }));
            }
            Err(error) => {
                drop(name);
                return Err(MpsError::from(error));
            }
        };
        if is_objective {
            drop(name);
            drop(mem::replace(&mut self.objective, made.into_objective(maximise)));
            return Ok(());
        }
        self.rows.push(made.into_row(name))?;
        Ok(())
    }
}

/// The rows and the objective of the problem, or the fault of the first row that has one.
pub fn make_rows(
    alloc: Global,
    maximise: bool,
    names: Vec<Text>,
    drafts: Vec<RowDraft>,
) -> Result<RowsAndObjective, MpsError>
    requires { All HasDecimals drafts.items }
    ensures { let ps = zip names.items drafts.items in MatchResult result
        (λ parts. (first_fault row_fault_kept ps ≡ None) × (parts ≡ rows_and_objective maximise ps))
        (IsOf (first_fault row_fault_kept ps)) }
{
    let mut parts = RowsAndObjective::new(alloc, maximise);
    for (name, draft) in names.into_iter().zip(drafts) {
        match parts.take(alloc, maximise, name, draft) {
            Ok(()) => {}
            Err(error) => {
                drop(parts);
                return Err(error);
            }
        }
    }
    Ok(parts)
}
