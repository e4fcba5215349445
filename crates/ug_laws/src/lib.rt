//! The laws: whatever happens between a coordinator, its solvers and a disk, in whatever order, no
//! better point is lost, by the book nor by what recovery finds, as long as solvers are honest.
//! A schedule is a list of events; what each does is defined here, and what a coordinator of
//! ug_coord does is such a schedule. Workers of ug_serve are honest, so of them nothing is assumed.
//! There is no code but the types of events: a program calls the laws that its contracts need.
#![tactic(auto)]

mod decision;
mod disk_event;
mod disk_law;
mod event;
mod law;

pub use decision::Decision;
pub use disk_event::DiskEvent;
pub use disk_law::{crashes_lose_nothing, runs_begin};
pub use event::Event;
pub use law::{
    calm_workers_live, coordinators_lose_nothing, coordinators_of_workers_lose_nothing,
    honest_solvers_lose_nothing,
};
