//! The columns, rows and objective made from the drafts of a file. Depends on ug_problem, and knows
//! nothing of files and their lines. An amount sets a part of a column's bounds; `make_columns`
//! returns the columns, `make_rows` the rows and the objective, each row times the least power of
//! ten that makes its numbers whole, or the first fault. specs/ defines each of them. Memory is
//! allocated for the results only.
#![tactic(auto)]

mod bound;
mod cause;
mod column;
mod fault;
mod laws;
mod made;
mod made_columns;
mod role;
mod row;
mod rows_and_objective;
mod scaling;

pub use bound::{
    Amount, Bound, BoundChange, amount_from, infinity, sets, sets_both, sets_lower, sets_upper,
};
pub use cause::{Cause, wide_part};
pub use column::ColumnDraft;
pub use fault::{Kind, MpsError, MpsFault};
pub use laws::least_scale;
pub use made_columns::{column_kind, high_kept, is_infinite, low_kept, make_columns};
pub use role::Role;
pub use row::{Factor, RowDraft, RowPart};
pub use rows_and_objective::{RowsAndObjective, make_rows};
