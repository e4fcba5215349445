use crate::answer::is_over;
use std::alloc::{AllocError, Global};
use ug_book::Book;

// A rank that sleeps asks again after this number of reports of boxes that could be handed: its
// question makes the book decide, which asks a rank for nodes.
const REPORTS: u32 = 4;

/// Who is to be woken behind a call.
#[derive(Clone, Copy)]
pub enum Woken {
    Nobody,
    One(u32),
    All,
}

/// The known state of one rank.
#[derive(Clone, Copy, PartialEq, Eq)]
enum Place {
    /// It has not asked for work yet.
    Absent,
    /// It asked, and there was nothing for it.
    Sleeping,
    /// It has work, or was lost.
    Busy,
}

/// The ranks that sleep, since there was nothing for them. No contract depends on it.
#[derive(Drop)]
pub struct Waiting {
    places: Vec<Place>,
    // The number of ranks that sleep.
    sleeping: u32,
    // The number of ranks that have not asked for work yet.
    absent: u32,
    // The number of reports of two boxes or more since a rank asked for work last.
    reports: u32,
}

impl Waiting {
    /// The ranks at the start of a run: none has asked for work.
    pub fn new(alloc: Global, ranks: u32) -> Result<Waiting, AllocError> {
        let places = vec![in alloc; Place::Absent; ranks as usize]?;
        Ok(Waiting {
            places,
            sleeping: 0,
            absent: ranks,
            reports: 0,
        })
    }

    /// A rank has asked for work, and sleeps if there was nothing for it.
    pub fn looked(&mut self, rank: u32, sleeps: bool) {
        self.reports = 0;
        self.set(rank, if sleeps { Place::Sleeping } else { Place::Busy });
    }

    /// A rank was lost.
    pub fn left(&mut self, rank: u32) {
        self.set(rank, Place::Busy);
    }

    /// A rank reported the number of its open boxes.
    pub fn told(&mut self, left: u64) {
        if left > 1 {
            self.reports = self.reports.saturating_add(1);
        }
    }

    /// Who is to be woken: all if the run is over, else one at most. That is the lowest that was
    /// given work; or the lowest of all, to which a decision gives first, if an open node waits or
    /// it is time to ask again. A rank that takes what is there wakes the next.
    pub fn woken(&self, book: &Book) -> Woken {
        if self.sleeping == 0 {
            return Woken::Nobody;
        }
        if is_over(book) {
            return Woken::All;
        }
        let has_node = book.open() > 0 && !self.may_await_race(book);
        let is_due = self.reports >= REPORTS || has_node;
        let mut lowest = Woken::Nobody;
        for rank in 0..book.settings().solvers {
            if !self.sleeps(rank) {
                continue;
            }
            if book.current(rank).is_some() {
                return Woken::One(rank);
            }
            if is_due && matches!(lowest, Woken::Nobody) {
                lowest = Woken::One(rank);
            }
        }
        lowest
    }

    // Whether the one open node may wait for a race, which begins when each rank has asked for work
    // or was lost. The last of them wakes another; until then no rank would get anything.
    fn may_await_race(&self, book: &Book) -> bool {
        book.settings().racing && self.absent > 0 && book.open() == 1
    }

    fn place(&self, rank: u32) -> Place {
        match self.places.get(rank as usize) {
            Some(place) => *place,
            None => Place::Busy,
        }
    }

    fn sleeps(&self, rank: u32) -> bool {
        self.place(rank) == Place::Sleeping
    }

    fn set(&mut self, rank: u32, new: Place) {
        match self.place(rank) {
            Place::Absent => self.absent = self.absent.saturating_sub(1),
            Place::Sleeping => self.sleeping = self.sleeping.saturating_sub(1),
            Place::Busy => {}
        }
        if let Some(place) = self.places.get_mut(rank as usize) {
            *place = new;
        }
        if new == Place::Sleeping {
            self.sleeping = self.sleeping.saturating_add(1);
        }
    }
}
