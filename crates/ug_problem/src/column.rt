use ug_lists::{Items, Text};
use ug_rows::Row;

/// A column: its name and its bounds, both included.
#[derive(Clone, Drop)]
pub struct Column {
    pub name: Text,
    pub low: i32,
    pub high: i32,
}

/// A row and its name.
#[derive(Clone, Drop)]
pub struct NamedRow {
    pub name: Text,
    pub row: Row,
}

/// The columns of a problem, in the order of the file.
pub type Columns = Items<Column>;

/// The rows of a problem, in the order of the file.
pub type NamedRows = Items<NamedRow>;
