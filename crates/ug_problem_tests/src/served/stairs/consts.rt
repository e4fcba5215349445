//! The orders and the reports of a search of the stairs, as their cases name them.

use crate::served::words::{FIRST, NEXT_RUN, Ordered, Reported, SECOND, Work};
use ug_nodes::Change;

/// All of it, under the first ticket.
pub const WHOLE: Work = Work {
    ticket: FIRST,
    params: 4,
    race: false,
    cutoff: None,
    changes: &[],
};

/// Work on it.
pub const ROOT: Ordered = Ordered::Work(WHOLE);

/// The same, which others search too.
pub const RACE: Ordered = Ordered::Work(Work {
    race: true,
    ..WHOLE
});

/// The same under the second ticket.
pub const SECOND_ROOT: Ordered = Ordered::Work(Work {
    ticket: SECOND,
    ..WHOLE
});

/// The same under a cutoff that no value is below.
pub const NOTHING_BELOW: Ordered = Ordered::Work(Work {
    ticket: SECOND,
    cutoff: Some(-65534),
    ..WHOLE
});

/// What ends a task at its next round.
pub const LEAST: Ordered = Ordered::Incumbent { cutoff: -65534 };

/// One box is asked for.
pub const COLLECT_1: Ordered = Ordered::CollectIn {
    ticket: FIRST,
    count: 1,
};

/// Two are.
pub const COLLECT_2: Ordered = Ordered::CollectIn {
    ticket: FIRST,
    count: 2,
};

/// Five are.
pub const COLLECT_5: Ordered = Ordered::CollectIn {
    ticket: FIRST,
    count: 5,
};

/// Two, under another ticket.
pub const SECOND_COLLECT_2: Ordered = Ordered::CollectIn {
    ticket: SECOND,
    count: 2,
};

/// Two, under a ticket of the next run.
pub const NEXT_COLLECT_2: Ordered = Ordered::CollectIn {
    ticket: NEXT_RUN,
    count: 2,
};

/// The point of the first round.
pub const FIRST_ROUND: Reported = Reported::Solution {
    ticket: FIRST,
    point: &[11, 32767, 32767],
};

/// That of the second.
pub const SECOND_ROUND: Reported = Reported::Solution {
    ticket: FIRST,
    point: &[10, 32767, 32767],
};

/// The first round of the second task.
pub const SECOND_TASK: Reported = Reported::Solution {
    ticket: SECOND,
    point: &[11, 32767, 32767],
};

/// The box with a 0..5 is handed.
pub const LOW: Reported = Reported::Hand {
    ticket: FIRST,
    number: 0,
    changes: &[Change {
        column: 0,
        low: 0,
        high: 5,
    }],
};

/// That with a 6..8.
pub const MIDDLE: Reported = Reported::Hand {
    ticket: FIRST,
    number: 1,
    changes: &[Change {
        column: 0,
        low: 6,
        high: 8,
    }],
};

/// That with a 9 and b 0..16383, the third that is handed.
pub const THIRD: Reported = Reported::Hand {
    ticket: FIRST,
    number: 2,
    changes: &[
        Change {
            column: 0,
            low: 9,
            high: 9,
        },
        Change {
            column: 1,
            low: 0,
            high: 16383,
        },
    ],
};

/// That with a 9 and b 16384..24575, the fourth.
pub const FOURTH: Reported = Reported::Hand {
    ticket: FIRST,
    number: 3,
    changes: &[
        Change {
            column: 0,
            low: 9,
            high: 9,
        },
        Change {
            column: 1,
            low: 16384,
            high: 24575,
        },
    ],
};

/// The boxes left after the first round if none was handed, one, and two.
pub const THREE_LEFT: Reported = Reported::State {
    ticket: FIRST,
    left: 3,
    floor: -65534,
};

pub const TWO_LEFT: Reported = Reported::State {
    ticket: FIRST,
    left: 2,
    floor: 327682,
};

pub const ONE_LEFT: Reported = Reported::State {
    ticket: FIRST,
    left: 1,
    floor: 524290,
};

/// After the second round where none was handed.
pub const FIVE_LEFT: Reported = Reported::State {
    ticket: FIRST,
    left: 5,
    floor: -65534,
};

/// The same where two of them were handed, or one.
pub const NINES_LEFT: Reported = Reported::State {
    ticket: FIRST,
    left: 3,
    floor: 524290,
};

pub const FOUR_LEFT: Reported = Reported::State {
    ticket: FIRST,
    left: 4,
    floor: 327682,
};

/// And where of three that were left then one was handed.
pub const LAST_TWO_LEFT: Reported = Reported::State {
    ticket: FIRST,
    left: 2,
    floor: 524290,
};

/// The end of the task under the least cutoff, with this many boxes handed.
pub const DONE_0: Reported = Reported::Done {
    ticket: FIRST,
    cutoff: Some(-65534),
    count: 0,
};

pub const DONE_1: Reported = Reported::Done {
    ticket: FIRST,
    cutoff: Some(-65534),
    count: 1,
};

pub const DONE_2: Reported = Reported::Done {
    ticket: FIRST,
    cutoff: Some(-65534),
    count: 2,
};

pub const DONE_3: Reported = Reported::Done {
    ticket: FIRST,
    cutoff: Some(-65534),
    count: 3,
};

pub const DONE_4: Reported = Reported::Done {
    ticket: FIRST,
    cutoff: Some(-65534),
    count: 4,
};

/// The second task: what it hands and leaves, and its end where nothing is below its cutoff.
pub const SECOND_LOW: Reported = Reported::Hand {
    ticket: SECOND,
    number: 0,
    changes: &[Change {
        column: 0,
        low: 0,
        high: 5,
    }],
};

pub const SECOND_MIDDLE: Reported = Reported::Hand {
    ticket: SECOND,
    number: 1,
    changes: &[Change {
        column: 0,
        low: 6,
        high: 8,
    }],
};

pub const SECOND_THREE_LEFT: Reported = Reported::State {
    ticket: SECOND,
    left: 3,
    floor: -65534,
};

pub const SECOND_ONE_LEFT: Reported = Reported::State {
    ticket: SECOND,
    left: 1,
    floor: 524290,
};

pub const SECOND_DONE: Reported = Reported::Done {
    ticket: SECOND,
    cutoff: Some(-65534),
    count: 0,
};
