ghost use Rattle.std.specs.Prelude.{IfOk, ◌≡◌, ◌<◌, length};
ghost use Rattle.ug_turn.specs.Locks.{id_of, passes_of};
ghost use Rattle.ug_turn.specs.Seats.{AreAtRest};
ghost use Rattle.ug_book_tests.specs.Passes.{ArePasses, IsPass};

use crate::expect::{holds, holds_at, same};
use crate::turns::adding::{add, add_all, add_by_each, hold, last_seat, last_two, take_out};
use crate::turns::chronicle::{Chronicle, Entry};
use std::alloc::{AllocError, Global};
use std::process::Abort;
use std::sync::Wait;
use std::thread::{Threads, join};
use std::time::Clock;
use ug_turn::{SeatOf, Turn};

// A lock round a value without entries, and its seats.
fn opened(
    alloc: Global,
    passes: u32,
) -> Result<(Turn<Chronicle>, Vec<SeatOf<Chronicle>>), AllocError>
    requires { 0 < passes }
    ensures passes { IfOk result (λ made. passes_of made.0 ≡ passes) }
    ensures count { IfOk result (λ made. length made.1.items ≡ passes) }
    ensures each { IfOk result (λ made. ArePasses (id_of made.0) made.1.items) }
    ensures rest { IfOk result (λ made. AreAtRest (id_of made.0) made.1.items) }
{
    let value = Chronicle {
        start: 7,
        entries: Vec::new(alloc),
    };
    Turn::new(alloc, value, passes)
}

// How many entries of a pass are in their order.
fn in_order(entries: &[Entry], pass: u32) -> u32 {
    let mut next = 0u32;
    for entry in entries {
        if entry.pass == pass && entry.number == next {
            next = next.wrapping_add(1);
        }
    }
    next
}

// Whether this many entries of each of this many passes are in their order, and no others.
fn are_all(entries: &[Entry], passes: u32, count: u32) -> bool {
    for pass in 0..passes {
        if in_order(entries, pass) != count {
            return false;
        }
    }
    entries.len() as u64 == u64::from(passes) * u64::from(count)
}

// Whether, where this many threads have added this many entries each, those are there.
fn all_kept<R: Threads + Wait + Abort + Sync>(
    rt: &R,
    alloc: Global,
    threads: u32,
    count: u32,
) -> bool
    requires { threads < 100 }
{
    let (turn, mut seats) = opened(alloc, threads + 1).expect(rt, "memory");
    let mut last = last_seat(&turn, &mut seats).expect(rt, "a seat");
    add_by_each(rt, &turn, seats, count);
    let value = take_out(rt, &turn, &mut last);
    let are_kept = are_all(value.entries.as_slice(), threads, count);
    drop(value);
    drop(last);
    drop(turn);
    are_kept
}

// About this many turns are taken in all by each number of threads.
const TURNS: u32 = 1_000_000;

#[test]
fn threads_take_turns(rt: HostRuntime) {
    for threads in 2u32..9 {
        let count = TURNS / threads;
        holds_at(&rt, all_kept(&rt, rt.alloc(), threads, count), &threads);
    }
}

// A seat waits while another has the value and a third is dropped.
fn wait_for<R: Threads + Wait + Clock + Sync>(
    rt: &R,
    turn: &Turn<Chronicle>,
    one: SeatOf<Chronicle>,
    mut two: SeatOf<Chronicle>,
    three: SeatOf<Chronicle>,
)
    requires first { IsPass (id_of turn.now) 0 one }
    requires second { IsPass (id_of turn.now) 1 two }
{
    let held = take_out(rt, turn, &mut two);
    join(
        rt,
        || add_all(rt, turn, one, 0, 1),
        || hold(rt, turn, two, held, three),
    );
}

// The passes of two entries, if there are two.
fn passes_of_two(entries: &[Entry]) -> Option<(u32, u32)> {
    match entries {
        [first, second] => Some((first.pass, second.pass)),
        _ => None,
    }
}

// The passes of the entries that then stand, by their order.
fn waited<R: Threads + Wait + Clock + Abort + Sync>(rt: &R, alloc: Global) -> Option<(u32, u32)> {
    let (turn, mut seats) = opened(alloc, 4).expect(rt, "memory");
    let mut four = last_seat(&turn, &mut seats).expect(rt, "a seat");
    let three = last_seat(&turn, &mut seats).expect(rt, "a seat");
    let (one, two) = last_two(&turn, &mut seats).expect(rt, "two seats");
    drop(seats);
    wait_for(rt, &turn, one, two, three);
    let value = take_out(rt, &turn, &mut four);
    let found = passes_of_two(value.entries.as_slice());
    drop(value);
    drop(four);
    drop(turn);
    found
}

#[test]
fn a_seat_waits_while_another_is_let_go(rt: HostRuntime) {
    same(&rt, &waited(&rt, rt.alloc()), &Some((1, 0)));
}

// One seat adds an entry, another receives from it, both meet, and the cutoff has fallen.
fn told<R: Wait>(
    rt: &R,
    turn: &Turn<Chronicle>,
    two: &mut SeatOf<Chronicle>,
    three: &mut SeatOf<Chronicle>,
) -> (u64, u64)
    requires second { IsPass (id_of turn.now) 1 two.old }
    requires third { IsPass (id_of turn.now) 2 three.old }
{
    let before = turn.cutoff(two);
    add(rt, turn, three, Entry { pass: 2, number: 0 });
    let note = turn.split(three);
    turn.join(two, note);
    turn.meet(two, three);
    let after = turn.cutoff(two);
    (before, after)
}

#[test]
fn seats_meet_and_read_the_cutoff(rt: HostRuntime) {
    let (turn, mut seats) = opened(rt.alloc(), 3).expect(&rt, "memory");
    let (mut two, mut three) = last_two(&turn, &mut seats).expect(&rt, "two seats");
    let found = told(&rt, &turn, &mut two, &mut three);
    same(&rt, &found, &(u64::MAX, u64::MAX - 1));
    drop(two);
    drop(three);
    drop(seats);
    drop(turn);
}

#[test]
fn a_lock_is_closed(rt: HostRuntime) {
    let (turn, seats) = opened(rt.alloc(), 3).expect(&rt, "memory");
    let value = turn.close(seats);
    holds(&rt, value.start == 7 && value.entries.is_empty());
    drop(value);
}
