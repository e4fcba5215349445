ghost use Rattle.std.specs.Prelude.{◌≡◌};
ghost use Rattle.ug_fields.specs.Reading.{Gives};
ghost use Rattle.ug_frames.specs.ReportReading.{solution_at, hand_at, state_at, done_at, tagged_at, report_in};

use crate::reading::GREATEST_VALUE;
use crate::reading::changes::changes_at;
use crate::reading::parts::ticket_at;
use crate::reading::point::point_at;
use crate::report::{Ending, Report};
use std::alloc::Global;
use ug_fields::{Fault, long_at, number_at, optional_at, small_at};

// The fields of a Solution.
#[tactic(auto, unfolding(crate::specs::ReportReading::solution_at))]
fn solution_at(alloc: Global, bytes: &[u8]) -> Result<(Report, &[u8]), Fault>
    ensures { Gives (λ x. (x.0, x.1.now)) result (solution_at bytes.now) }
{
    let (ticket, rest) = ticket_at(bytes)?;
    let (point, rest) = point_at(alloc, rest)?;
    Ok((Report::Solution { ticket, point }, rest))
}

// The fields of a Hand.
#[tactic(auto, unfolding(crate::specs::ReportReading::hand_at))]
fn hand_at(alloc: Global, bytes: &[u8]) -> Result<(Report, &[u8]), Fault>
    ensures { Gives (λ x. (x.0, x.1.now)) result (hand_at bytes.now) }
{
    let (ticket, rest) = ticket_at(bytes)?;
    let (number, rest) = long_at(rest, 0)?;
    let (changes, rest) = changes_at(alloc, rest)?;
    let report = Report::Hand {
        ticket,
        number,
        changes,
    };
    Ok((report, rest))
}

// The fields of a State.
#[tactic(auto, unfolding(crate::specs::ReportReading::state_at))]
fn state_at(bytes: &[u8]) -> Result<(Report, &[u8]), Fault>
    ensures { Gives (λ x. (x.0, x.1.now)) result (state_at bytes.now) }
{
    let (ticket, rest) = ticket_at(bytes)?;
    let (open, rest) = long_at(rest, 1)?;
    let (floor, rest) = number_at(rest, GREATEST_VALUE)?;
    let report = Report::State {
        ticket,
        open,
        floor,
    };
    Ok((report, rest))
}

// The fields of a Done.
#[tactic(auto, unfolding(crate::specs::ReportReading::done_at))]
fn done_at(bytes: &[u8]) -> Result<(Report, &[u8]), Fault>
    ensures { Gives (λ x. (x.0, x.1.now)) result (done_at bytes.now) }
{
    let (ticket, rest) = ticket_at(bytes)?;
    let (cutoff, rest) = optional_at(rest, GREATEST_VALUE)?;
    let (count, rest) = long_at(rest, 0)?;
    let report = Report::Done {
        ticket,
        cutoff,
        count,
        end: Ending::Plain,
    };
    Ok((report, rest))
}

// The fields of the report with this tag.
#[tactic(auto, unfolding(crate::specs::ReportReading::tagged_at))]
fn tagged_at(alloc: Global, tag: u8, bytes: &[u8]) -> Result<(Report, &[u8]), Fault>
    ensures { Gives (λ x. (x.0, x.1.now)) result (tagged_at tag bytes.now) }
{
    match tag {
        17 => Ok((Report::Ready, bytes)),
        18 => solution_at(alloc, bytes),
        19 => hand_at(alloc, bytes),
        20 => state_at(bytes),
        21 => done_at(bytes),
        _ => Ok((Report::Ended, bytes)),
    }
}

/// The report of these bytes, which a frame has behind its length: its tag and its fields.
#[tactic(auto, unfolding(crate::specs::ReportReading::report_in, crate::specs::Reading::alone))]
pub fn report_in(alloc: Global, bytes: &[u8]) -> Result<Report, Fault>
    ensures { Gives (λ x. x) result (report_in bytes.now) }
{
    let (tag, rest) = small_at(bytes, 17, 22)?;
    let (report, rest) = tagged_at(alloc, tag, rest)?;
    if !rest.is_empty() {
        drop(report);
        return Err(Fault::Bad(rest.len()));
    }
    Ok(report)
}
