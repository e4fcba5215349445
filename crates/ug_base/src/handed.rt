use ug_rows::IntBox;

/// A box that is handed to another.
#[derive(Drop)]
pub struct Handed {
    /// Its place among the boxes that the task has handed, from 0.
    pub number: u64,
    pub area: IntBox,
}
