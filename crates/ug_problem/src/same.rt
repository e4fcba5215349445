//! Whether two columns, or two rows with their names, are the same.

use crate::column::{Column, NamedRow};
use ug_lists::Same;

impl Same for Column {
    fn is(&self, other: &Column) -> bool {
        self.low == other.low && self.high == other.high && self.name.is(&other.name)
    }
}

impl Same for NamedRow {
    fn is(&self, other: &NamedRow) -> bool {
        self.name.is(&other.name) && self.row.is(&other.row)
    }
}
