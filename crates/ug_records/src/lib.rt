//! The record of a problem: the bytes in which it goes into a checkpoint or to another process.
//! It depends on ug_fields for each field, and on ug_problem, ug_rows and ug_lists.
//! `advance` writes the bytes that the spelling in specs/ names, line by line, and `to_record` puts
//! the lines together; each record is that of one problem. `from_record` reads every record back,
//! and says of all other bytes where the first field stands that is cut short or breaks a rule.
#![tactic(auto)]

mod advancing;
mod counting;
mod error;
mod laws;
mod lines;
mod lists;
mod reading;
mod stage;
mod whole;
mod writing;

pub use advancing::advance;
pub use counting::record_length;
pub use error::RecordError;
pub use laws::records_are_unique;
pub use reading::from_record;
pub use stage::RecordStage;
pub use writing::to_record;
