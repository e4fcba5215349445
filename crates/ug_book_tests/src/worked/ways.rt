//! Ways in which workers solve a problem.

ghost use Rattle.std.specs.Prelude.{IfSome};
ghost use Rattle.ug_rules.specs.Books.{AreSettings};

use ug_branch::Base;
use ug_model::Visit;
use ug_rules::Settings;

/// How workers are visited before each is visited in its turn, with all that there is.
#[derive(Clone, Copy)]
pub enum Visits {
    /// Each receives a byte of its orders, and a byte of its reports is received.
    ByteByByte,
    /// One after another, each until nothing comes of it any more.
    OneBeforeAnother,
    /// All of them work long before anything is received from them, and then a few bytes are.
    LateReports,
    /// None is.
    InTurn,
}

/// How a problem is solved.
#[derive(Clone, Copy)]
pub struct Way {
    pub solvers: u32,
    pub racing: bool,
    pub gap: i128,
    pub low: u32,
    pub high: u32,
    pub visits: Visits,
}

/// One to four ranks, with a race and without, a gap and none, and pools from the least on.
pub const WAYS: &[Way] = &[
    Way {
        solvers: 1,
        racing: false,
        gap: 0,
        low: 0,
        high: 0,
        visits: Visits::ByteByByte,
    },
    Way {
        solvers: 2,
        racing: false,
        gap: 0,
        low: 2,
        high: 3,
        visits: Visits::ByteByByte,
    },
    Way {
        solvers: 4,
        racing: true,
        gap: 0,
        low: 4,
        high: 8,
        visits: Visits::ByteByByte,
    },
    Way {
        solvers: 3,
        racing: false,
        gap: 2,
        low: 3,
        high: 6,
        visits: Visits::OneBeforeAnother,
    },
    Way {
        solvers: 2,
        racing: true,
        gap: 2,
        low: 0,
        high: 0,
        visits: Visits::LateReports,
    },
    Way {
        solvers: 4,
        racing: false,
        gap: 0,
        low: 8,
        high: 8,
        visits: Visits::LateReports,
    },
    Way {
        solvers: 3,
        racing: true,
        gap: 0,
        low: 1,
        high: 1,
        visits: Visits::InTurn,
    },
];

/// The settings of a run in this way, if there are some.
pub fn settings_of(way: Way) -> Option<Settings>
    ensures { IfSome result AreSettings }
{
    if way.solvers == 0 || way.high < way.low || way.gap < 0 || 2 < way.gap {
        return None;
    }
    Some(Settings {
        solvers: way.solvers,
        racing: way.racing,
        base: Base::Bound,
        low: way.low,
        high: way.high,
        every: 0,
        limit: u64::MAX,
        winner: 2,
        gap: way.gap,
    })
}

// A visit more. Whether there was memory for it, as of each call here.
fn push(schedule: &mut Vec<Visit>, rank: u32, orders: usize, reports: usize) -> bool {
    let visit = Visit {
        rank,
        orders,
        reports,
    };
    schedule.extend_from_slice(&[visit]).is_ok()
}

// This many visits of each rank in turn, with this many bytes of orders and of reports at most.
fn push_rounds(
    schedule: &mut Vec<Visit>,
    solvers: u32,
    rounds: u32,
    orders: usize,
    reports: usize,
) -> bool {
    let mut so = true;
    for _ in 0..rounds {
        for rank in 0..solvers {
            so = so && push(schedule, rank, orders, reports);
        }
    }
    so
}

// This many visits of each rank with all that there is, one rank after another.
fn push_ranks(schedule: &mut Vec<Visit>, solvers: u32, visits: u32) -> bool {
    let mut so = true;
    for rank in 0..solvers {
        for _ in 0..visits {
            so = so && push(schedule, rank, usize::MAX, usize::MAX);
        }
    }
    so
}

// Rounds in which nothing is received before rounds in which little is, over and over.
fn push_late(schedule: &mut Vec<Visit>, solvers: u32) -> bool {
    let mut so = true;
    for _ in 0..20 {
        so = so
            && push_rounds(schedule, solvers, 20, usize::MAX, 0)
            && push_rounds(schedule, solvers, 5, 0, 7);
    }
    so
}

/// Puts the schedule of visits of this way.
pub fn push_visits(schedule: &mut Vec<Visit>, way: Way) -> bool {
    match way.visits {
        Visits::ByteByByte => push_rounds(schedule, way.solvers, 600, 1, 1),
        Visits::OneBeforeAnother => push_ranks(schedule, way.solvers, 200),
        Visits::LateReports => push_late(schedule, way.solvers),
        Visits::InTurn => true,
    }
}
