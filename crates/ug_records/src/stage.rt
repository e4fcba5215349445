/// What comes next of a record: a line before a list, or an item of one.
#[derive(Clone, Copy, PartialEq, Eq)]
pub enum RecordStage {
    /// The count of columns.
    Front,
    /// This column, or behind the last the count of rows.
    Column(usize),
    /// The head of this row, or behind the last that of the objective.
    Row(usize),
    /// A term of a row, or the end of the row behind its last term.
    Term(usize, usize),
    /// This term of the objective, or behind the last nothing.
    LastTerm(usize),
}
