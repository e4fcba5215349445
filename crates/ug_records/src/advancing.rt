ghost use Rattle.std.specs.Prelude.{◌≡◌, []};
ghost use Rattle.ug_fields.specs.Lines.{IsNextLine};
ghost use Rattle.ug_records.specs.Rests.{rest_at, from_front, from_column, from_rows, from_row, from_term, from_objective, from_last_term};

use crate::lines::{put_column, put_objective_head, put_row_head, put_term};
use crate::stage::RecordStage;
use ug_fields::Line;
use ug_problem::Problem;

/// Puts the next line of the problem's record into the line, and says what comes then. The line
/// stays empty at the end alone.
pub fn advance(line: &mut Line, problem: &Problem, stage: RecordStage) -> RecordStage
    ensures { IsNextLine (rest_at problem.now stage) line.new (rest_at problem.now result) }
{
    line.clear();
    match stage {
        RecordStage::Front => at_front(line, problem),
        RecordStage::Column(k) => at_column(line, problem, k),
        RecordStage::Row(j) => at_row(line, problem, j),
        RecordStage::Term(j, k) => at_term(line, problem, j, k),
        RecordStage::LastTerm(k) => at_last_term(line, problem, k),
    }
}

fn at_last_term(line: &mut Line, problem: &Problem, k: usize) -> RecordStage
    requires { line.old ≡ [] }
    ensures { IsNextLine (from_last_term problem.now k) line.new (rest_at problem.now result) }
{
    let terms = problem.objective().terms.as_slice();
    if k >= terms.len() {
        return RecordStage::LastTerm(k);
    }
    put_term(line, &terms[k]);
    RecordStage::LastTerm(k + 1)
}

fn at_objective(line: &mut Line, problem: &Problem) -> RecordStage
    requires { line.old ≡ [] }
    ensures { IsNextLine (from_objective problem.now) line.new (rest_at problem.now result) }
{
    put_objective_head(line, problem.objective());
    RecordStage::LastTerm(0)
}

fn at_row(line: &mut Line, problem: &Problem, j: usize) -> RecordStage
    requires { line.old ≡ [] }
    ensures { IsNextLine (from_row problem.now j) line.new (rest_at problem.now result) }
{
    let rows = problem.rows();
    if j >= rows.len() {
        return at_objective(line, problem);
    }
    put_row_head(line, &rows[j]);
    RecordStage::Term(j, 0)
}

fn at_term(line: &mut Line, problem: &Problem, j: usize, k: usize) -> RecordStage
    requires { line.old ≡ [] }
    ensures { IsNextLine (from_term problem.now j k) line.new (rest_at problem.now result) }
{
    let rows = problem.rows();
    if j >= rows.len() {
        return at_objective(line, problem);
    }
    let terms = rows[j].row.terms.as_slice();
    if k >= terms.len() {
        return at_row(line, problem, j + 1);
    }
    put_term(line, &terms[k]);
    RecordStage::Term(j, k + 1)
}

fn at_rows(line: &mut Line, problem: &Problem) -> RecordStage
    requires { line.old ≡ [] }
    ensures { IsNextLine (from_rows problem.now) line.new (rest_at problem.now result) }
{
    line.put_count(problem.rows().len() as u32);
    RecordStage::Row(0)
}

fn at_column(line: &mut Line, problem: &Problem, k: usize) -> RecordStage
    requires { line.old ≡ [] }
    ensures { IsNextLine (from_column problem.now k) line.new (rest_at problem.now result) }
{
    let columns = problem.columns();
    if k >= columns.len() {
        return at_rows(line, problem);
    }
    put_column(line, &columns[k]);
    RecordStage::Column(k + 1)
}

fn at_front(line: &mut Line, problem: &Problem) -> RecordStage
    requires { line.old ≡ [] }
    ensures { IsNextLine (from_front problem.now) line.new (rest_at problem.now result) }
{
    line.put_count(problem.columns().len() as u32);
    RecordStage::Column(0)
}
