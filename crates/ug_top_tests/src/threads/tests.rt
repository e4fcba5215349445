use crate::expect::{holds, holds_at, same};
use crate::running::sound_disk;
use crate::threads::answer::{Answer, answer_of};
use crate::threads::cases::{CHOICE, FLAT, KNAPSACK, LONG, ODD, RAMP, SQUARE};
use crate::threads::family::Member;
use crate::threads::holding::HoldingObserver;
use crate::threads::observers::{each_waits, one_asks_again, second_begins_late};
use crate::threads::problems::Small;
use crate::threads::solving::{settings, solved, solved_on, solved_without};
use crate::threads::trying::least_by_trying;
use crate::threads::yielding::YieldingObserver;
use std::alloc::Global;
use std::sync::Wait;
use std::thread::Threads;
use ug_checkpoint::load;
use ug_disk::MemoryDisk;
use ug_restart::{Attempt, End, Outcome, Unobserved};

// Whether two ranks have found the value of the knapsack, and both are alive then: a caller who
// solves alone has sent all ranks but 0 away.
fn two_have_found_it(outcome: &Outcome) -> bool {
    let both = match &outcome.end {
        End::Answered(book) => {
            book.settings().solvers == 2 && book.is_alive(0) && book.is_alive(1)
        }
        _ => false,
    };
    both && answer_of(outcome) == Answer::Value(-13)
}

// When rank 0 asks again, it has the root.
#[test]
fn two_threads_overlap(rt: HostRuntime) {
    let observer = HoldingObserver::new(rt.alloc(), 2, &each_waits()).expect(&rt, "memory");
    let limits = settings(2, false, u64::MAX);
    let outcome = solved_without(&rt, rt.alloc(), &KNAPSACK, limits, &observer);
    holds(&rt, outcome.as_ref().is_some_and(two_have_found_it));
    drop(outcome);
    same(&rt, &observer.missed(), &0);
    drop(observer);
}

// Whether a run that was cut short holds the root and a node below it.
fn two_are_held(outcome: &Outcome) -> bool {
    let End::Limited(book) = &outcome.end else {
        return false;
    };
    match book.held() {
        Ok(nodes) => {
            let count = nodes.len();
            drop(nodes);
            count > 1
        }
        Err(_) => false,
    }
}

// Rank 0 has the root, and is asked for a node once rank 1 waits for one.
#[test]
fn node_is_handed_to_a_rank_that_waits(rt: HostRuntime) {
    let observer = HoldingObserver::new(rt.alloc(), 2, &one_asks_again()).expect(&rt, "memory");
    let outcome = solved_without(&rt, rt.alloc(), &LONG, settings(2, false, 60), &observer);
    holds(&rt, outcome.as_ref().is_some_and(two_are_held));
    same(&rt, &observer.missed(), &0);
    drop(outcome);
    drop(observer);
}

// The number of reports of a run that ended with an answer.
fn reports_of(outcome: &Outcome) -> Option<u64> {
    match &outcome.end {
        End::Answered(book) => Some(book.heard()),
        _ => None,
    }
}

// Rank 1 reads the cutoff of rank 0's point before its first step, so it has no point to report.
// Two reports answer the run: that point, and the end of rank 1's task.
#[test]
fn cutoff_is_read_before_the_first_step(rt: HostRuntime) {
    let observer = HoldingObserver::new(rt.alloc(), 2, &second_begins_late()).expect(&rt, "memory");
    let limits = settings(2, true, u64::MAX);
    let outcome = solved_without(&rt, rt.alloc(), &FLAT, limits, &observer);
    same(&rt, &outcome.as_ref().and_then(reports_of), &Some(2));
    drop(outcome);
    same(&rt, &observer.missed(), &0);
    drop(observer);
}

// Whether each number of solvers finds the answer, racing or not.
fn all_find<R: Threads + Wait + Sync + AllocGlobal>(
    rt: &R,
    small: &Small<'_>,
    answer: Answer,
) -> bool {
    for solvers in [1, 2, 3, 8] {
        for racing in [false, true] {
            if solved(rt, rt.alloc(), small, solvers, racing, &Unobserved) != answer {
                return false;
            }
        }
    }
    true
}

const ANSWERS: &[(Small<'static>, Answer)] = &[
    (SQUARE, Answer::Value(5)),
    (KNAPSACK, Answer::Value(-13)),
    (ODD, Answer::Infeasible),
    (CHOICE, Answer::Value(-93)),
    (RAMP, Answer::Value(-7)),
];

#[test]
fn any_number_of_threads_finds_the_value(rt: HostRuntime) {
    for (small, answer) in ANSWERS {
        let least = least_by_trying(rt.alloc(), small);
        same(&rt, &least.ok(), &Some(*answer));
        holds(&rt, all_find(&rt, small, *answer));
    }
}

// Whether they find what trying finds of the problem of a number.
fn all_find_what_trying_finds<R: Threads + Wait + Sync + AllocGlobal>(rt: &R, number: u64) -> bool {
    let member = Member::new(number);
    let rows = member.rows();
    let small = Small {
        columns: &member.columns,
        rows: &rows,
        objective: &member.objective,
    };
    match least_by_trying(rt.alloc(), &small) {
        Ok(answer) => all_find(rt, &small, answer),
        Err(_) => false,
    }
}

#[test]
fn any_number_of_threads_finds_what_trying_finds(rt: HostRuntime) {
    for number in 0..40 {
        holds_at(&rt, all_find_what_trying_finds(&rt, number), &number);
    }
}

#[test]
fn threads_in_any_order_find_one_value(rt: HostRuntime) {
    for number in 0..100 {
        let observer = YieldingObserver::new(number);
        let found = solved(&rt, rt.alloc(), &KNAPSACK, 4, false, &observer);
        same(&rt, &found, &Answer::Value(-13));
    }
}

// Whether a run that may receive so much has received it and ends unanswered, or has found the
// value.
fn ends_at(outcome: &Outcome, limit: u64) -> bool {
    match &outcome.end {
        End::Limited(book) => book.heard() >= limit && book.answer().is_none(),
        _ => limit > 0 && answer_of(outcome) == Answer::Value(-13),
    }
}

// Whether a run of the knapsack that may receive so much ends so.
fn is_limited<R: Threads + Wait + Sync>(rt: &R, alloc: Global, limit: u64) -> bool {
    let settings = settings(3, false, limit);
    let Some(outcome) = solved_without(rt, alloc, &KNAPSACK, settings, &Unobserved) else {
        return false;
    };
    let ends = ends_at(&outcome, limit);
    drop(outcome);
    ends
}

#[test]
fn run_ends_at_its_limit(rt: HostRuntime) {
    for limit in 0..=5 {
        holds_at(&rt, is_limited(&rt, rt.alloc(), limit), &limit);
    }
}

// Whether a run on the disk finds the value, misses no save, and says that the last one was made.
fn is_solved_on<R: Threads + Wait + Sync>(rt: &R, alloc: Global, disk: &mut MemoryDisk) -> bool {
    let Some(outcome) = solved_on(rt, alloc, &KNAPSACK, disk) else {
        return false;
    };
    let answer = answer_of(&outcome);
    let missed = (outcome.missed, outcome.unsaved);
    let last = outcome.last;
    drop(outcome);
    answer == Answer::Value(-13) && missed == (0, 0) && last == Some(Attempt::Saved)
}

// Whether recovery finds the book of a first run that has ended with a best point.
fn has_ended_on(alloc: Global, disk: &mut MemoryDisk) -> bool {
    let Some(Some(found)) = load(alloc, disk).ok() else {
        return false;
    };
    let image = &found.image;
    let has_ended = image.nodes.is_empty() && image.best.is_some() && image.run == 1;
    drop(found);
    has_ended
}

#[test]
fn ending_book_is_found_on_the_disk(rt: HostRuntime) {
    let mut disk = sound_disk(rt.alloc());
    holds(&rt, is_solved_on(&rt, rt.alloc(), &mut disk));
    holds(&rt, has_ended_on(rt.alloc(), &mut disk));
    drop(disk);
}
