ghost use Rattle.std.specs.Prelude.{◌≡◌, ◌+◌, ◌<◌, length, IfSome};
ghost use Rattle.std.specs.Thread.{IsSync};
ghost use mathlib.Core.List.{IsPrefix};
ghost use Rattle.ug_turn.specs.Locks.{id_of};
ghost use Rattle.ug_turn.specs.Seats.{IsAtRestAt, view_of};
ghost use Rattle.ug_book_tests.specs.Passes.{ArePasses, HasOut, IsPass};

use crate::turns::chronicle::{Chronicle, Entry};
use std::sync::Wait;
use std::thread::{Threads, join, sleep};
use std::time::{Clock, Duration};
use ug_turn::{SeatOf, Turn};

/// The last of the seats that stand by the numbers of their passes.
pub fn last_seat(
    turn: &Turn<Chronicle>,
    seats: &mut Vec<SeatOf<Chronicle>>,
) -> Option<SeatOf<Chronicle>>
    requires { ArePasses (id_of turn.now) seats.old.items }
    ensures last { IfSome result (IsPass (id_of turn.now) (length seats.new.items)) }
    ensures others { ArePasses (id_of turn.now) seats.new.items }
    ensures count { IfSome result (λ _. length seats.new.items + 1 ≡ length seats.old.items) }
{
    let _turn = turn;
    seats.pop()
}

/// The last two of the seats, by their order.
pub fn last_two(
    turn: &Turn<Chronicle>,
    seats: &mut Vec<SeatOf<Chronicle>>,
) -> Option<(SeatOf<Chronicle>, SeatOf<Chronicle>)>
    requires { ArePasses (id_of turn.now) seats.old.items }
    ensures first { IfSome result (λ two.
        IsPass (id_of turn.now) (length seats.new.items) two.0) }
    ensures second { IfSome result (λ two.
        IsPass (id_of turn.now) (length seats.new.items + 1) two.1) }
    ensures others { ArePasses (id_of turn.now) seats.new.items }
    ensures count { IfSome result (λ _. length seats.new.items + 2 ≡ length seats.old.items) }
{
    let second = last_seat(turn, seats)?;
    let first = last_seat(turn, seats)?;
    Some((first, second))
}

/// Waits for the seat's turn and takes the value.
pub fn take_out<R: Wait>(rt: &R, turn: &Turn<Chronicle>, seat: &mut SeatOf<Chronicle>) -> Chronicle
    requires { IsAtRestAt (id_of turn.now) seat.old }
    ensures out { HasOut (id_of turn.now) (view_of seat.old).pass seat.new result.start
        result.entries.items }
    ensures begins { IsPrefix (view_of seat.old).seen (view_of seat.new).seen }
{
    turn.take(rt, seat)
}

/// Puts the value home with one entry more, and says whether there was memory for it.
pub fn put_home(
    turn: &Turn<Chronicle>,
    seat: &mut SeatOf<Chronicle>,
    mut value: Chronicle,
    entry: Entry,
) -> bool
    requires { HasOut (id_of turn.now) entry.pass seat.old value.start value.entries.items }
    ensures pass { IsPass (id_of turn.now) entry.pass seat.new }
    ensures begins { IsPrefix (view_of seat.old).seen (view_of seat.new).seen }
{
    if value.entries.push(entry).is_err() {
        turn.put(seat, value, None);
        return false;
    }
    turn.put(seat, value, Some(entry));
    true
}

/// Adds an entry in a turn of its own, and says whether there was memory for it.
pub fn add<R: Wait>(
    rt: &R,
    turn: &Turn<Chronicle>,
    seat: &mut SeatOf<Chronicle>,
    entry: Entry,
) -> bool
    requires { IsPass (id_of turn.now) entry.pass seat.old }
    ensures pass { IsPass (id_of turn.now) entry.pass seat.new }
    ensures begins { IsPrefix (view_of seat.old).seen (view_of seat.new).seen }
{
    let value = take_out(rt, turn, seat);
    put_home(turn, seat, value, entry)
}

/// Adds this many entries, and says whether there was memory.
pub fn add_all<R: Wait>(
    rt: &R,
    turn: &Turn<Chronicle>,
    mut seat: SeatOf<Chronicle>,
    pass: u32,
    count: u32,
) -> bool
    requires { IsPass (id_of turn.now) pass seat }
{
    let mut so = true;
    for number in 0..count {
        so = so && add(rt, turn, &mut seat, Entry { pass, number });
    }
    drop(seat);
    so
}

/// Keeps the value for a while, lets another seat go meanwhile, and puts the value home with the
/// first entry of pass 1, if there is memory for it.
pub fn hold<R: Clock>(
    rt: &R,
    turn: &Turn<Chronicle>,
    mut seat: SeatOf<Chronicle>,
    value: Chronicle,
    other: SeatOf<Chronicle>,
) -> bool
    requires { HasOut (id_of turn.now) 1 seat value.start value.entries.items }
{
    sleep(rt, Duration::from_millis(100));
    drop(other);
    sleep(rt, Duration::from_millis(50));
    let so = put_home(turn, &mut seat, value, Entry { pass: 1, number: 0 });
    drop(seat);
    so
}

/// Adds this many entries for each of the passes from 0 on, in a thread each, and says whether
/// there was memory.
#[cycle(crowd)]
pub fn add_by_each<R: Threads + Wait + Sync>(
    rt: &R,
    turn: &Turn<Chronicle>,
    mut seats: Vec<SeatOf<Chronicle>>,
    count: u32,
) -> bool
    requires few { length seats.items < 100 }
    requires each { ArePasses (id_of turn.now) seats.items }
{
    let Some(seat) = last_seat(turn, &mut seats) else {
        drop(seats);
        return true;
    };
    let pass = seats.len() as u32;
    let (mine, others) = join(
        rt,
        || -> bool
            requires { IsPass (id_of turn.now) pass seat }
        { add_all(rt, turn, seat, pass, count) },
        || -> bool
            requires sync { IsSync R.row }
            requires few { length seats.items < 100 }
            requires each { ArePasses (id_of turn.now) seats.items }
        { add_by_each(rt, turn, seats, count) },
    );
    mine && others
}
