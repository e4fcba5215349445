ghost use Rattle.std.specs.Prelude.{IfOk};
ghost use Rattle.ug_rules.specs.Hearing.{IsHearable};

use crate::answers::Answers;
use crate::random::Random;
use crate::ranks::Solver;
use crate::start::{RANKS, begin, problem};
use std::alloc::{AllocError, Global};
use std::mem;
use ug_book::Book;
use ug_frames::{Ending, Report};
use ug_nodes::Ticket;
use ug_problem::Shared;
use ug_rows::Point;
use ug_rules::Told;

// A book with its solvers.
#[derive(Drop)]
struct Crew {
    alloc: Global,
    book: Book,
    solvers: Vec<Solver>,
    random: Random,
    answers: Answers,
}

/// Drives books through this many messages.
pub fn drive(alloc: Global, count: u64) -> Result<Answers, AllocError> {
    let problem = problem(alloc)?;
    let answers = drive_with(alloc, &problem, count);
    drop(problem);
    answers
}

fn drive_with(alloc: Global, problem: &Shared, count: u64) -> Result<Answers, AllocError> {
    let mut crew = crew_of(alloc, problem)?;
    let answers = crew.send(problem, count);
    drop(crew);
    answers
}

fn crew_of(alloc: Global, problem: &Shared) -> Result<Crew, AllocError> {
    let solvers = solvers(alloc)?;
    match begin(alloc, problem) {
        Ok(book) => Ok(Crew {
            alloc,
            book,
            solvers,
            random: Random::new(),
            answers: Answers::new(),
        }),
        Err(error) => {
            drop(solvers);
            Err(error)
        }
    }
}

fn solvers(alloc: Global) -> Result<Vec<Solver>, AllocError> {
    let mut solvers = Vec::new(alloc);
    for _ in 0..RANKS {
        solvers.push(Solver::new(alloc))?;
    }
    Ok(solvers)
}

impl Crew {
    // Sends this many messages; when a book is over, another one is begun.
    fn send(&mut self, problem: &Shared, count: u64) -> Result<Answers, AllocError> {
        self.all_join()?;
        for _ in 0..count {
            self.send_one()?;
            if self.book.answer().is_some() {
                self.begin_anew(problem)?;
            }
        }
        Ok(self.answers)
    }

    fn begin_anew(&mut self, problem: &Shared) -> Result<(), AllocError> {
        let book = begin(self.alloc, problem)?;
        drop(mem::replace(&mut self.book, book));
        self.all_join()
    }

    // All ranks join, and what can be given is.
    fn all_join(&mut self) -> Result<(), AllocError> {
        self.answers.books = self.answers.books.wrapping_add(1);
        for solver in &mut self.solvers {
            solver.works = false;
        }
        for rank in 0..RANKS {
            self.join(rank);
        }
        self.decide()
    }

    fn join(&mut self, rank: u32) {
        if rank < self.book.settings().solvers {
            self.book.join(rank);
        }
    }

    // Decides, and the solvers obey.
    fn decide(&mut self) -> Result<(), AllocError> {
        self.answers.decisions = self.answers.decisions.wrapping_add(1);
        let Ok(()) = self.book.decide() else {
            return Err(AllocError);
        };
        while let Some(told) = self.book.next_order() {
            obey(&mut self.solvers, told)?;
        }
        Ok(())
    }

    // One message of some rank, and what follows from it.
    fn send_one(&mut self) -> Result<(), AllocError> {
        let rank = self.random.below(RANKS);
        let dice = self.random.below(1000);
        if dice == 0 {
            self.lose(rank);
        }
        let report = match self.solvers.get_mut(rank as usize) {
            Some(solver) => message(self.alloc, solver, dice)?,
            None => Report::Ended,
        };
        let decides = matches!(report, Report::Done { .. } | Report::Hand { .. });
        self.hear(rank, report);
        if decides || dice == 0 {
            self.decide()?;
        }
        Ok(())
    }

    fn hear(&mut self, rank: u32, report: Report)
        requires { IsHearable report }
    {
        if rank < self.book.settings().solvers {
            let answer = self.book.hear(rank, report);
            self.answers.count(answer);
        }
    }

    // The rank is lost, and joins again.
    fn lose(&mut self, rank: u32) {
        if rank < self.book.settings().solvers {
            self.book.gone(rank);
            self.answers.deaths = self.answers.deaths.wrapping_add(1);
        }
        self.join(rank);
        if let Some(solver) = self.solvers.get_mut(rank as usize) {
            solver.works = false;
        }
    }
}

// The solver of the rank that is reported an order obeys.
fn obey(solvers: &mut [Solver], told: Told) -> Result<(), AllocError> {
    let obeyed = match solvers.get_mut(told.rank as usize) {
        Some(solver) => solver.obey(&told.order),
        None => Ok(()),
    };
    drop(told);
    obeyed
}

// What a solver says next.
fn message(alloc: Global, solver: &mut Solver, dice: u32) -> Result<Report, AllocError>
    ensures { IfOk result IsHearable }
{
    let ticket = solver.ticket;
    if !solver.works || dice < 20 {
        return late(alloc, solver.ticket);
    }
    if solver.asked > 0 {
        if let Some(changes) = solver.next_box(alloc)? {
            let number = solver.hands;
            solver.hands = solver.hands.wrapping_add(1);
            solver.asked -= 1;
            return Ok(Report::Hand {
                ticket,
                number,
                changes,
            });
        }
    }
    if dice < 120 {
        solver.works = false;
        return Ok(Report::Done {
            ticket,
            cutoff: None,
            count: solver.hands,
            end: Ending::Plain,
        });
    }
    Ok(Report::State {
        ticket,
        open: u64::from(dice),
        floor: i128::from(dice),
    })
}

// A message of an older ticket.
fn late(alloc: Global, ticket: Ticket) -> Result<Report, AllocError>
    ensures { IfOk result IsHearable }
{
    let mut values = Vec::new(alloc);
    values.push(0)?;
    let ticket = Ticket {
        run: ticket.run,
        number: ticket.number.wrapping_sub(1),
    };
    Ok(Report::Solution {
        ticket,
        point: Point::from_vec(values),
    })
}
