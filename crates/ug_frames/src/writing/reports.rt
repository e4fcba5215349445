ghost use Rattle.std.specs.Prelude.{◌≡◌, ◌≤◌, ◌+◌, ◌∷◌, ◌++◌, length, vec_len, vec_capacity};
ghost use Rattle.ug_frames.specs.Reports.{IsReport};
ghost use Rattle.ug_frames.specs.ReportFrames.{tag_of, fields_of};

use crate::report::{Ending, Report};
use crate::writing::lengths::{changes_length, optional_length, point_length};
use crate::writing::parts::{put_changes, put_point, put_ticket};
use ug_fields::{put_long, put_number, put_optional};

/// What says which report it is.
pub fn tag(report: &Report) -> u8
    ensures { result ≡ tag_of report.now }
{
    match report {
        Report::Ready => 17,
        Report::Solution { .. } => 18,
        Report::Hand { .. } => 19,
        Report::State { .. } => 20,
        Report::Done { end, .. } => match end {
            Ending::Plain => 21,
        },
        Report::Ended => 22,
    }
}

/// How many bytes the fields behind the tag have.
#[tactic(auto, unfolding(crate::specs::ReportFrames::fields_of))]
pub fn fields_length(report: &Report) -> u32
    requires { IsReport report.now }
    ensures long { result ≡ length (fields_of report.now) }
    ensures short { result ≤ 67108859 }
{
    match report {
        Report::Ready => 0,
        Report::Solution { point, .. } => 16 + point_length(point),
        Report::Hand { changes, .. } => 24 + changes_length(changes),
        Report::State { .. } => 40,
        Report::Done { cutoff, .. } => 24 + optional_length(*cutoff),
        Report::Ended => 0,
    }
}

/// The fields behind the tag.
#[tactic(auto, unfolding(crate::specs::ReportFrames::fields_of))]
pub fn put_fields(buffer: &mut Vec<u8>, report: &Report)
    requires report { IsReport report.now }
    requires room { vec_len buffer.old + length (fields_of report.now) ≤ vec_capacity buffer.old }
    ensures { buffer.new.items ≡ buffer.old.items ++ fields_of report.now }
{
    match report {
        Report::Solution { ticket, point } => {
            put_ticket(buffer, *ticket);
            put_point(buffer, point);
        }
        Report::Hand {
            ticket,
            number,
            changes,
        } => {
            put_ticket(buffer, *ticket);
            put_long(buffer, *number);
            put_changes(buffer, changes);
        }
        Report::State {
            ticket,
            open,
            floor,
        } => {
            put_ticket(buffer, *ticket);
            put_long(buffer, *open);
            put_number(buffer, *floor);
        }
        Report::Done {
            ticket,
            cutoff,
            count,
            end: Ending::Plain,
        } => {
            put_ticket(buffer, *ticket);
            put_optional(buffer, *cutoff);
            put_long(buffer, *count);
        }
        Report::Ready | Report::Ended => (),
    }
}
