//! Whether two of these are the same, part by part.

use crate::area::{IntBox, Interval};
use crate::point::Point;
use crate::row::{Objective, Row, Term};
use ug_lists::{Same, are_same};

impl Same for Term {
    fn is(&self, other: &Term) -> bool {
        *self == *other
    }
}

impl Same for Interval {
    fn is(&self, other: &Interval) -> bool {
        *self == *other
    }
}

impl Same for Point {
    fn is(&self, other: &Point) -> bool {
        are_same(self.as_slice(), other.as_slice())
    }
}

impl Same for IntBox {
    fn is(&self, other: &IntBox) -> bool {
        are_same(self.as_slice(), other.as_slice())
    }
}

impl Same for Row {
    fn is(&self, other: &Row) -> bool {
        self.low == other.low && self.high == other.high && self.terms.is(&other.terms)
    }
}

impl Same for Objective {
    fn is(&self, other: &Objective) -> bool {
        self.constant == other.constant
            && self.maximise == other.maximise
            && self.scale == other.scale
            && self.terms.is(&other.terms)
    }
}
