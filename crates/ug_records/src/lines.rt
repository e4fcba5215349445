ghost use Rattle.std.specs.Prelude.{◌≡◌, ◌<◌, ◌^◌, [], length};
ghost use Rattle.ug_problem.specs.Instances.{IsColumn, IsName};
ghost use Rattle.ug_records.specs.Spelling.{term_fields, column_fields};
ghost use Rattle.ug_records.specs.Rests.{row_head, objective_head};

use ug_fields::Line;
use ug_problem::{Column, NamedRow};
use ug_rows::{Objective, Term};

/// A column.
pub fn put_column(line: &mut Line, column: &Column)
    requires fresh { line.old ≡ [] }
    requires column { IsColumn column.now }
    ensures { line.new ≡ column_fields column.now }
{
    line.put_name(column.name.as_slice());
    line.put_bound(column.low);
    line.put_bound(column.high);
}

/// A row, up to its terms.
#[tactic(auto, unfolding(crate::specs::Rests::row_head))]
pub fn put_row_head(line: &mut Line, named: &NamedRow)
    requires fresh { line.old ≡ [] }
    requires name { IsName named.now.name }
    requires terms { length named.now.row.terms < 2 ^ 32 }
    ensures { line.new ≡ row_head named.now }
{
    line.put_name(named.name.as_slice());
    line.put_optional(named.row.low);
    line.put_optional(named.row.high);
    line.put_count(named.row.terms.len() as u32);
}

/// A term.
pub fn put_term(line: &mut Line, term: &Term)
    requires { line.old ≡ [] }
    ensures { line.new ≡ term_fields term.now }
{
    line.put_count(term.column);
    line.put_number(term.factor);
}

/// The objective, up to its terms.
#[tactic(auto, unfolding(crate::specs::Rests::objective_head))]
pub fn put_objective_head(line: &mut Line, objective: &Objective)
    requires fresh { line.old ≡ [] }
    requires terms { length objective.now.terms < 2 ^ 32 }
    ensures { line.new ≡ objective_head objective.now }
{
    line.put_byte(u8::from(objective.maximise));
    line.put_byte(objective.scale);
    line.put_number(objective.constant);
    line.put_count(objective.terms.len() as u32);
}
