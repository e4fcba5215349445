//! The pool of open nodes, in order of their floors and names.
//! It depends on ug_nodes, ug_lists and ug_rows.
//! `OpenNodes` takes nodes in, gives the least, and drops those whose floor is too great or that
//! stand below a node, each exactly as defined; `reserve` alone takes memory. `Pool` keeps it in
//! order, and lends its nodes; `PlainPool`, to compare it with, is slow, over an unsorted list.
#![tactic(auto)]

mod entry;
mod open_nodes;
mod plain;
mod pool;

pub use entry::Entry;
pub use open_nodes::OpenNodes;
pub use plain::PlainPool;
pub use pool::Pool;
