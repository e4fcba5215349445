//! What a coordinator and its solvers say of subproblems: names, lines, and boxes as changes. It
//! depends on ug_lists and ug_rows. `is_below` and `is_ancestor` say how nodes stand to one
//! another; `primitive` gives those of the nodes held that have no ancestor among them;
//! `changes_of` and `area_of` turn a box below the root into its one list of changes and back;
//! `first_outside` and `floor_of_changes` judge changes and move a floor with them, making no box.
//! `Hands` keeps the boxes that were handed, each as what it is against the one before it.
#![tactic(auto)]

mod ahead;
mod change;
mod delta;
mod floor;
mod hands;
mod laws;
mod line;
mod name;
mod node;
mod outside;
mod primitives;
mod sorted_lines;
mod spelling;

pub use change::{Change, Changes};
pub use delta::Delta;
pub use floor::floor_of_changes;
pub use hands::{Hands, Walk};
pub use laws::{ancestors_stand_in_a_row, one_box_for_each_list, one_list_for_each_box};
pub use line::{Line, is_ancestor, is_below};
pub use name::{Name, Ticket};
pub use node::Node;
pub use outside::first_outside;
pub use primitives::primitive;
pub use spelling::{AreaError, area_of, changes_of};
