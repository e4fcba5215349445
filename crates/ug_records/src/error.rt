/// Why no problem is read.
#[derive(Clone, Copy, Debug, PartialEq, Eq)]
pub enum RecordError {
    /// Memory ran out.
    Memory,
    /// The bytes are the record of no problem. The first field that is cut short or breaks a rule
    /// begins at this byte; bytes behind a whole record are such a field.
    BadRecord { at: usize },
}
