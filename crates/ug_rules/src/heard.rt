use ug_problem::Broken;

/// What a report is answered.
#[derive(Clone, Copy, PartialEq, Eq)]
pub enum Heard {
    /// It was taken.
    Kept,
    /// The rank is dead, or its ticket is another.
    Stale,
    /// Ready of a rank that has joined, or Ended.
    Early,
    /// The point is not feasible, first in this way.
    Broken(Broken),
    /// The point's value, `given`, is not below the incumbent's, `kept`.
    NotBetter {
        kept: i128,
        given: i128,
    },
    /// A hand in a race.
    InRace,
    /// A hand whose number was received.
    Again,
    /// A hand whose number is above the next.
    Gap {
        want: u64,
        got: u64,
    },
    /// A hand whose box leaves the ticket's; the least such column.
    Outside {
        column: u32,
    },
    /// A Done under a cutoff without an incumbent, or below the incumbent's.
    Unbacked {
        cutoff: i128,
        incumbent: Option<i128>,
    },
    /// A Done with another number of hands than were taken.
    Short {
        told: u64,
        taken: u64,
    },
    /// Memory ran out: nothing has changed. It comes of a hand alone.
    Memory,
}
