ghost use Rattle.std.specs.Prelude.{◌≡◌, ◌||◌, true, if◌then◌else◌};
ghost use Rattle.ug_lines.specs.Shapes.{row};
ghost use Rattle.ug_problem.specs.Instances.{IsName};
ghost use Rattle.ug_drafts.specs.Roles.{is_objective};
ghost use Rattle.ug_mps.specs.Drafts.{TakesShape, belongs};
ghost use Rattle.ug_mps.specs.History.{role_with};

use crate::draft::Draft;
use crate::error::{bare_fault, fault_of};
use ug_drafts::{Kind, MpsError, Role};
use ug_lines::{RowKind, row_kind_of};
use ug_problem::MOST_ROWS;

// What a row of this type is to the problem, where the objective is there or is not.
fn role_of(kind: RowKind, has_objective: bool) -> Role
    ensures { result ≡ role_with has_objective kind }
{
    match kind {
        RowKind::Objective => {
            if has_objective {
                Role::Ignored
            } else {
                Role::Objective
            }
        }
        RowKind::AtMost => Role::AtMost,
        RowKind::AtLeast => Role::AtLeast,
        RowKind::Equal => Role::Equal,
    }
}

// Whether there is an objective, once there is this row.
fn has_objective_with(has_objective: bool, role: Role) -> bool
    ensures { result ≡ (has_objective || is_objective role) }
{
    has_objective || role.is_objective()
}

impl Draft {
    /// Takes a row, or reports its fault.
    pub fn row(&mut self, line: u64, kind: &[u8], name: &[u8]) -> Result<(), MpsError>
        requires section { belongs self.old.section (row kind.now name.now) ≡ true }
        requires name { IsName name.now }
        ensures { TakesShape line (row kind.now name.now) self.old self.new result }
    {
        let Some(kind) = row_kind_of(kind) else {
            return Err(fault_of(self.alloc, line, Kind::RowKind, kind));
        };
        if self.rows.find(name).is_some() {
            return Err(fault_of(self.alloc, line, Kind::Duplicate, name));
        }
        if self.rows.len() >= MOST_ROWS {
            return Err(bare_fault(line, Kind::TooMany));
        }
        let role = role_of(kind, self.has_objective);
        self.rows.add(self.alloc, line, role, name)?;
        self.has_objective = has_objective_with(self.has_objective, role);
        Ok(())
    }
}
