ghost use Rattle.std.specs.Prelude.{◌≡◌, ◌<◌, length, slice_set};
ghost use Rattle.ug_ranks.specs.States.{state_at};
ghost use Rattle.ug_ranks.specs.Changes.{joined};
ghost use Rattle.ug_rules.specs.Books.{IsSoundBook};
ghost use Rattle.ug_rules.specs.Deaths.{killed};
ghost use Rattle.ug_rules.specs.Hearing.{IsDue, IsHearable, after_hearing, is_deadly, killed_under};
ghost use Rattle.ug_rules.specs.HearingLaws.{IsTrueReport};
ghost use Rattle.ug_rules.specs.State.{BookState};
ghost use Rattle.ug_stock.specs.Frontiers.{HasRoom, with_frontier};
ghost use Rattle.ug_book.specs.Views.{IsSameRun};
ghost use Rattle.ug_book.specs.Heard.{heard_after};

use crate::book::Book;
use crate::report::take_report;
use ug_frames::Report;
use ug_rules::Heard;
use ug_stock::Frontier;

impl Book {
    /// Receives a report of a rank and returns the answer that is due. After an answer that means a
    /// loss the rank is dead. `Memory` is the answer to a hand only, and then nothing has changed.
    ///
    /// A sound book stays sound, if a Done of the rank's ticket is true of its box.
    pub fn hear(&mut self, rank: u32, report: Report) -> Heard
        requires there { rank < length self.old.ranks }
        requires hearable { IsHearable report }
        ensures due { IsDue self.old rank report result }
        ensures done { self.new ≡ after_hearing result rank report self.old }
        ensures same { IsSameRun self.old self.new }
        ensures sound { IsTrueReport self.old rank report → IsSoundBook self.old
            → IsSoundBook self.new }
    {
        let answer = take_report(
            &self.run,
            &mut self.incumbent,
            &mut self.frontier,
            rank,
            report,
        );
        end_by(answer, &mut self.frontier, rank);
        self.heard = heard_after(answer, self.heard);
        answer
    }

    /// A rank that is absent or dead is idle. At any other state nothing changes.
    pub fn join(&mut self, rank: u32)
        requires { rank < length self.old.ranks }
        ensures done { self.new ≡ record self.old {
          ranks = slice_set self.old.ranks rank (joined (state_at self.old.ranks rank));
        } }
        ensures same { IsSameRun self.old self.new }
        ensures sound { IsSoundBook self.old → IsSoundBook self.new }
    {
        self.frontier.ranks.idle(rank);
    }

    /// Declares the rank lost. Takes no memory.
    pub fn gone(&mut self, rank: u32)
        requires { rank < length self.old.ranks }
        ensures done { self.new ≡ killed rank self.old }
        ensures same { IsSameRun self.old self.new }
        ensures sound { IsSoundBook self.old → IsSoundBook self.new }
    {
        self.frontier.die(rank);
    }
}

// Carries out the death of the rank, if the answer is one.
fn end_by(answer: Heard, frontier: &mut Frontier, rank: u32)
    requires there { rank < length frontier.old.ranks }
    requires room { HasRoom frontier.old }
    ensures ended { (b : BookState) → with_frontier b frontier.new
        ≡ killed_under answer rank (with_frontier b frontier.old) }
    ensures room { HasRoom frontier.new }
{
    if is_deadly(answer) {
        frontier.die(rank);
    }
}

// Returns the number of reports after the answer to one more.
fn heard_after(answer: Heard, heard: u64) -> u64
    ensures { result ≡ heard_after answer heard }
{
    if answer == Heard::Memory {
        return heard;
    }
    heard.saturating_add(1)
}

// Whether the rank is dead after the answer.
fn is_deadly(answer: Heard) -> bool
    ensures { result ≡ is_deadly answer }
{
    match answer {
        Heard::Kept | Heard::Stale | Heard::NotBetter { .. } | Heard::Again | Heard::Memory =>
            false,
        Heard::Early
        | Heard::Broken(_)
        | Heard::InRace
        | Heard::Gap { .. }
        | Heard::Outside { .. }
        | Heard::Unbacked { .. }
        | Heard::Short { .. } => true,
    }
}
