//! Problems whose answers are known by hand.

use crate::threads::problems::{Small, SmallRow};

/// Two columns whose sum is at least 5 and minimised.
pub const SQUARE: Small<'static> = Small {
    columns: &[(0, 7), (0, 7)],
    rows: &[SmallRow {
        low: Some(5),
        high: None,
        factors: &[1, 1],
    }],
    objective: &[1, 1],
};

/// Three things of which as much as three rows allow is taken: 5A + 4B + 3C is at most 13.
pub const KNAPSACK: Small<'static> = Small {
    columns: &[(0, 10), (0, 10), (0, 10)],
    rows: &[
        SmallRow {
            low: None,
            high: Some(5),
            factors: &[2, 3, 1],
        },
        SmallRow {
            low: None,
            high: Some(11),
            factors: &[4, 1, 2],
        },
        SmallRow {
            low: None,
            high: Some(8),
            factors: &[3, 4, 2],
        },
    ],
    objective: &[-5, -4, -3],
};

/// Twice a sum is not 7.
pub const ODD: Small<'static> = Small {
    columns: &[(0, 10), (0, 10), (0, 10)],
    rows: &[SmallRow {
        low: Some(7),
        high: Some(7),
        factors: &[2, 2, 2],
    }],
    objective: &[],
};

/// Twice the sum of twenty columns is not 21, which takes a long search to find.
pub const LONG: Small<'static> = Small {
    columns: &[(0, 1); 20],
    rows: &[SmallRow {
        low: Some(21),
        high: Some(21),
        factors: &[2; 20],
    }],
    objective: &[],
};

/// Four things that are taken or not: the best is the last alone, with 93.
pub const CHOICE: Small<'static> = Small {
    columns: &[(0, 1), (0, 1), (0, 1), (0, 1)],
    rows: &[
        SmallRow {
            low: None,
            high: Some(63),
            factors: &[50, 23, 10, 43],
        },
        SmallRow {
            low: None,
            high: Some(74),
            factors: &[24, 45, 41, 38],
        },
        SmallRow {
            low: None,
            high: Some(29),
            factors: &[9, 29, 16, 4],
        },
    ],
    objective: &[-8, -31, -24, -93],
};

/// One column from 3 to 7, which is maximised.
pub const RAMP: Small<'static> = Small {
    columns: &[(3, 7)],
    rows: &[],
    objective: &[-1],
};

/// Three columns of which every point is as good as any.
pub const FLAT: Small<'static> = Small {
    columns: &[(0, 1), (0, 1), (0, 1)],
    rows: &[],
    objective: &[],
};
