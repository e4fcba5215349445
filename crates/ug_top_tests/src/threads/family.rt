//! Small problems that are made of a number, by plain formulas.

use crate::threads::problems::SmallRow;

/// Three columns, the coefficients of two rows and of the objective, and the sides of the rows.
#[derive(Clone, Copy)]
pub struct Member {
    pub columns: [(i32, i32); 3],
    pub first: [i128; 3],
    pub second: [i128; 3],
    pub objective: [i128; 3],
    /// The least sum of the first row.
    pub least: i128,
    /// Whether it is the greatest too.
    pub is_fixed: bool,
    /// The greatest sum of the second row.
    pub most: i128,
}

impl Member {
    /// The problem of this number.
    pub fn new(number: u64) -> Member {
        Member {
            columns: columns(number),
            first: factors(number, 20),
            second: factors(number, 30),
            objective: factors(number, 40),
            least: side(number, 50),
            is_fixed: drawn(number, 51, 4) == 0,
            most: side(number, 52),
        }
    }

    /// The rows.
    pub fn rows(&self) -> [SmallRow<'_>; 2] {
        [
            SmallRow {
                low: Some(self.least),
                high: if self.is_fixed {
                    Some(self.least)
                } else {
                    None
                },
                factors: &self.first,
            },
            SmallRow {
                low: None,
                high: Some(self.most),
                factors: &self.second,
            },
        ]
    }
}

// What a place of a problem draws, below a number.
fn drawn(number: u64, place: u64, among: u64) -> u64 {
    let both = number.wrapping_mul(64).wrapping_add(place);
    let half = both.wrapping_mul(0x9e37_79b9_7f4a_7c15);
    let mixed = (half ^ (half >> 29)).wrapping_mul(0xbf58_476d_1ce4_e5b9);
    (mixed >> 32).checked_rem(among).unwrap_or(0)
}

fn columns(number: u64) -> [(i32, i32); 3] {
    [column(number, 0), column(number, 1), column(number, 2)]
}

// From one to five values, the least of which is -1, 0 or 1.
fn column(number: u64, place: u64) -> (i32, i32) {
    let low = small(drawn(number, place, 3)).wrapping_sub(1);
    let above = small(drawn(number, place.wrapping_add(10), 5));
    (low, low.wrapping_add(above))
}

fn small(value: u64) -> i32 {
    i32::try_from(value).unwrap_or(0)
}

fn factors(number: u64, place: u64) -> [i128; 3] {
    [
        factor(number, place),
        factor(number, place.wrapping_add(1)),
        factor(number, place.wrapping_add(2)),
    ]
}

// From -4 to 4, and not 0.
fn factor(number: u64, place: u64) -> i128 {
    let factor = i128::from(drawn(number, place, 8)).wrapping_sub(4);
    if factor < 0 {
        factor
    } else {
        factor.wrapping_add(1)
    }
}

// From -6 to 6.
fn side(number: u64, place: u64) -> i128 {
    i128::from(drawn(number, place, 13)).wrapping_sub(6)
}
