ghost use Rattle.std.specs.Prelude.{◌≡◌, Err, IfOk, IfErr, MatchResult};
ghost use Rattle.ug_problem.specs.Instances.{Instance, instance_of};
ghost use Rattle.ug_problem.specs.Limits.{IsProblem};
ghost use Rattle.ug_records.specs.Answers.{IsFirstBad, IsRecordOf, IsRefused};
ghost use Rattle.ug_records.specs.Reading.{record_at};
ghost use Rattle.ug_records.specs.declared.error.RecordError.TheVariants.{Memory};

use crate::error::RecordError;
use crate::whole::parts_of;
use std::alloc::Global;
use ug_fields::Fault;
use ug_problem::{Columns, NamedRows, Problem, ProblemError};
use ug_rows::Objective;

/// The problem whose record the bytes are. Bytes that are no problem's record are refused with the
/// place of the first field that is cut short or breaks a rule.
pub fn from_record(alloc: Global, bytes: &[u8]) -> Result<Problem, RecordError>
    ensures read { IfOk result (IsRecordOf bytes.now) }
    ensures every { (p : Instance) → IsRecordOf bytes.now p
        → MatchResult result (λ q. q ≡ p) (λ e. e ≡ Memory) }
    ensures refused { IfErr result (IsRefused bytes.now) }
{
    match parts_of(alloc, bytes) {
        Ok((columns, rows, objective)) => whole_problem(alloc, columns, rows, objective),
        Err(Fault::Memory) => Err(RecordError::Memory),
        Err(Fault::Bad(left)) => Err(RecordError::BadRecord {
            at: first_bad(bytes, left),
        }),
    }
}

// If the first bad field begins, from which on this many bytes are left.
fn first_bad(bytes: &[u8], left: usize) -> usize
    requires { record_at bytes.now ≡ Err left }
    ensures place { IsFirstBad bytes.now result }
    ensures none { (p : Instance) → ¬ IsRecordOf bytes.now p }
{
    bytes.len() - left
}

// The problem of parts that are within all limits.
fn whole_problem(
    alloc: Global,
    columns: Columns,
    rows: NamedRows,
    objective: Objective,
) -> Result<Problem, RecordError>
    requires { IsProblem (instance_of columns rows objective) }
    ensures { MatchResult result (λ p. p ≡ instance_of columns rows objective) (λ e. e ≡ Memory) }
{
    match Problem::new(alloc, columns, rows, objective) {
        Ok(problem) => Ok(problem),
        Err(error) => {
            let is_memory = error == ProblemError::Memory;
            prove!(is_memory);
            Err(RecordError::Memory)
        }
    }
}
