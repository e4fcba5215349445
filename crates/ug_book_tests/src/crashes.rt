//! Disks, slots, saves and restarts, wherever the disk stops and whatever a crash leaves: which
//! field of a slot is named, what a restart answers, the slots that a run writes, byte for byte,
//! stops after each call of saves and restarts, crashes by schedule, and what is asked of a folder
//! and in which order. Real folders are tried with the built program (tests/program).

mod disks;
mod fields;
mod folders;
mod loads;
mod savers;
mod schedules;
mod slots;
mod starts;
mod stops;
