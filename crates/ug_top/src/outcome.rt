ghost use Rattle.std.specs.Prelude.{◌≡◌, [], ◌++◌, IfOk, IfSome};
ghost use Rattle.ug_rules.specs.State.{held_nodes};
ghost use Rattle.ug_restart.specs.Outcomes.{IfAnswered, IsStranded};
ghost use Rattle.ug_print.specs.Limited.{count_lines};
ghost use Rattle.ug_top.specs.Lines.{AreEndLines, IsEndLine, IsLeftPoint};
ghost use Rattle.ug_top.specs.Outcomes.{TellsEnd, TellsFault, TellsOutcome};

use crate::ended::Ended;
use crate::status::{Status, status_of};
use std::alloc::{AllocError, Global};
use ug_print::{
    answer_line, answer_lines, fault_line, incumbent_lines, open_line, push_counts, stranded_line,
};
use ug_restart::{End, Outcome, StartFault};

// A status and its lines.
type Told = (Status, Vec<u8>);

/// Says how a run ended, under the gap as it was asked for, and which saves are counted.
pub fn tell_outcome(alloc: Global, outcome: &Outcome, gap: u64) -> Ended
    requires { IfAnswered outcome.now.end (λ b. held_nodes b ≡ []) }
    ensures { TellsOutcome gap outcome.now result }
{
    match end_lines(alloc, &outcome.end, gap) {
        Ok(Some((status, text))) => with_counts(alloc, status, text, outcome, gap),
        _ => Ended::Memory,
    }
}

// With the saves that are counted.
fn with_counts(alloc: Global, status: Status, text: Vec<u8>, outcome: &Outcome, gap: u64) -> Ended
    requires { AreEndLines gap outcome.now.end status text.items }
    ensures { TellsOutcome gap outcome.now result }
{
    let mut text = text;
    match push_counts(&mut text, alloc, outcome.missed, outcome.unsaved) {
        Ok(()) => Ended::Lines {
            status,
            text,
            best: best_of(alloc, &outcome.end),
        },
        Err(AllocError) => Ended::Memory,
    }
}

// The lines of the incumbent of a run that may continue, if it has one and memory suffices.
fn best_of(alloc: Global, end: &End) -> Option<Vec<u8>>
    ensures { IfSome result (λ text. IsLeftPoint end.now text.items) }
{
    match end {
        End::Limited(book) | End::Stranded(book) => incumbent_lines(alloc, book).ok(),
        End::Answered(_) | End::Memory => None,
    }
}

// The status and the first lines of an end; none where it has no book.
fn end_lines(alloc: Global, end: &End, gap: u64) -> Result<Option<Told>, AllocError>
    requires { IfAnswered end.now (λ b. held_nodes b ≡ []) }
    ensures { IfOk result (λ told. IfSome told (λ t. AreEndLines gap end.now t.0 t.1.items)) }
{
    match end {
        End::Answered(book) => Ok(Some((Status::Answered, answer_lines(alloc, book, gap)?))),
        End::Limited(book) => Ok(Some((Status::Limited, open_line(alloc, book)?))),
        End::Stranded(book) => Ok(Some((Status::Stranded, stranded_line(alloc, book)?))),
        End::Memory => Ok(None),
    }
}

/// Reports the first line of how a run ended, without a gap.
pub fn tell_end(alloc: Global, outcome: &Outcome) -> Ended
    requires none { IfAnswered outcome.now.end (λ b. held_nodes b ≡ []) }
    requires stranded { IsStranded outcome.now.end → ⊥ }
    ensures { TellsEnd outcome.now result }
{
    match end_line(alloc, &outcome.end) {
        Ok(Some((status, text))) => Ended::Lines {
            status,
            text,
            best: None,
        },
        _ => Ended::Memory,
    }
}

// The status and the first line of an end; none where it has no book.
fn end_line(alloc: Global, end: &End) -> Result<Option<Told>, AllocError>
    requires none { IfAnswered end.now (λ b. held_nodes b ≡ []) }
    requires stranded { IsStranded end.now → ⊥ }
    ensures { IfOk result (λ told. IfSome told (λ t. IsEndLine end.now t.0 t.1.items)) }
{
    match end {
        End::Answered(book) => Ok(Some((Status::Answered, answer_line(alloc, book)?))),
        End::Limited(book) => Ok(Some((Status::Limited, open_line(alloc, book)?))),
        End::Stranded(_) => unreachable!(),
        End::Memory => Ok(None),
    }
}

/// Says why a run does not begin.
pub fn tell_fault(alloc: Global, fault: &StartFault) -> Ended
    ensures { TellsFault fault.now result }
{
    match fault_line(alloc, fault) {
        Ok(text) => Ended::Lines {
            status: status_of(fault),
            text,
            best: None,
        },
        Err(AllocError) => Ended::Memory,
    }
}
