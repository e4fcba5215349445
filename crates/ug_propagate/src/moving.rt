//! Sums that go along with the box: a column's interval is replaced, and the sums of its rows move.

ghost use Rattle.std.specs.Prelude.{◌≡◌, true, ℕ, ◌+◌, ◌<◌, ◌≤◌, ◌*◌, ◌^◌, ◌+ℤ◌, ◌-ℤ◌, ◌*ℤ◌, ◌≤ℤ◌, length, map, slice_set, unsigned_abs, IfOk, OnOk};
ghost use Rattle.ug_rows.specs.declared.sums.Extreme.TheVariants.{Least, Greatest};
ghost use Rattle.ug_problem.specs.ColumnEntries.{AreColumnEntries, terms_of};
ghost use Rattle.ug_propagate.specs.Shorts.{AreShort};
ghost use Rattle.ug_propagate.specs.Running.{AreMoves, AreSums, HasMoved, are_in_64_bits, extremes_at, move_of, short_at, sums_in, widened};

use crate::measure::{Moves, add_move, moves_between};
use crate::rows::{RowSums, ShortExtremes};
use crate::short::add_short_move;
use crate::sums::Extremes;
use ug_problem::{ColumnEntry, Problem};
use ug_rows::Interval;

/// Brings the sums of a row to where the ends of one of its columns went. For a coefficient below 0
/// the high end moves the least sum, else the low end does.
pub fn move_sums(sums: &mut Extremes, factor: i128, moves: Moves)
    requires least { unsigned_abs sums.old.least ≤ 3 * 10 ^ 37 }
    requires greatest { unsigned_abs sums.old.greatest ≤ 3 * 10 ^ 37 }
    requires factor { unsigned_abs factor ≤ 10 ^ 24 }
    requires low { unsigned_abs moves.low ≤ 2 ^ 32 }
    requires high { unsigned_abs moves.high ≤ 2 ^ 32 }
    ensures least { sums.new.least ≡ sums.old.least +ℤ (factor *ℤ move_of Least factor moves) }
    ensures greatest { sums.new.greatest
        ≡ sums.old.greatest +ℤ (factor *ℤ move_of Greatest factor moves) }
{
    if factor < 0 {
        add_move(&mut sums.least, factor, moves.high);
        add_move(&mut sums.greatest, factor, moves.low);
    } else {
        add_move(&mut sums.least, factor, moves.low);
        add_move(&mut sums.greatest, factor, moves.high);
    }
}

// The sums of one row after the ends of one of its columns went so far.
fn shift_row(sums: &mut [Extremes], entry: ColumnEntry, moves: Moves)
    requires there { entry.row < length sums.old }
    requires least { unsigned_abs (extremes_at sums.old entry.row).least ≤ 3 * 10 ^ 37 }
    requires greatest { unsigned_abs (extremes_at sums.old entry.row).greatest ≤ 3 * 10 ^ 37 }
    requires factor { unsigned_abs entry.factor ≤ 10 ^ 24 }
    requires low { unsigned_abs moves.low ≤ 2 ^ 32 }
    requires high { unsigned_abs moves.high ≤ 2 ^ 32 }
    ensures { HasMoved entry.factor moves entry.row sums.old sums.new }
{
    move_sums(&mut sums[entry.row as usize], entry.factor, moves);
}

// Brings the sums to the box in which a column has another interval.
fn shift_wide(
    problem: &Problem,
    column: usize,
    area: &[Interval],
    side: Interval,
    sums: &mut [Extremes],
)
    requires there { column < length area.now }
    requires sums { AreSums problem.now area.now sums.old }
    ensures { AreSums problem.now (slice_set area.now column side) sums.new }
{
    let entries = problem.entries(column);
    let moves = moves_between(area[column], side);
    for entry in entries {
        shift_row(sums, *entry, moves);
    }
}

// The same in 64 bits.
fn move_short_sums(sums: &mut ShortExtremes, factor: i64, moves: Moves)
    requires least { unsigned_abs sums.old.least ≤ 2 ^ 60 }
    requires greatest { unsigned_abs sums.old.greatest ≤ 2 ^ 60 }
    requires factor { unsigned_abs factor ≤ 2 ^ 29 }
    requires low { unsigned_abs moves.low ≤ 2 ^ 32 }
    requires high { unsigned_abs moves.high ≤ 2 ^ 32 }
    ensures least { sums.new.least ≡ sums.old.least +ℤ (factor *ℤ move_of Least factor moves) }
    ensures greatest { sums.new.greatest
        ≡ sums.old.greatest +ℤ (factor *ℤ move_of Greatest factor moves) }
{
    if factor < 0 {
        add_short_move(&mut sums.least, factor, moves.high);
        add_short_move(&mut sums.greatest, factor, moves.low);
    } else {
        add_short_move(&mut sums.least, factor, moves.low);
        add_short_move(&mut sums.greatest, factor, moves.high);
    }
}

// The sums of one row after the ends of one of its columns went so far.
fn shift_short_row(sums: &mut [ShortExtremes], entry: ColumnEntry, moves: Moves)
    requires there { entry.row < length sums.old }
    requires least { unsigned_abs (short_at sums.old entry.row).least ≤ 2 ^ 60 }
    requires greatest { unsigned_abs (short_at sums.old entry.row).greatest ≤ 2 ^ 60 }
    requires factor { unsigned_abs entry.factor ≤ 2 ^ 29 }
    requires low { unsigned_abs moves.low ≤ 2 ^ 32 }
    requires high { unsigned_abs moves.high ≤ 2 ^ 32 }
    ensures { HasMoved entry.factor moves entry.row
        (map widened sums.old) (map widened sums.new) }
{
    move_short_sums(&mut sums[entry.row as usize], entry.factor as i64, moves);
}

// Brings the sums to the box in which a column has another interval, in 64 bits.
fn shift_short(
    problem: &Problem,
    column: usize,
    area: &[Interval],
    side: Interval,
    sums: &mut [ShortExtremes],
)
    requires there { column < length area.now }
    requires short { AreShort problem.now }
    requires sums { AreSums problem.now area.now (map widened sums.old) }
    ensures { AreSums problem.now (slice_set area.now column side) (map widened sums.new) }
{
    let entries = problem.entries(column);
    let moves = moves_between(area[column], side);
    for entry in entries {
        shift_short_row(sums, *entry, moves);
    }
}

/// Brings the sums to the box in which a column has another interval. It touches the rows of the
/// column alone.
pub fn shift(
    problem: &Problem,
    column: usize,
    area: &[Interval],
    side: Interval,
    rows: &mut RowSums,
)
    requires there { column < length area.now }
    requires sums { AreSums problem.now area.now (sums_in rows.old) }
    requires short { are_in_64_bits rows.old ≡ true → AreShort problem.now }
    ensures sums { AreSums problem.now (slice_set area.now column side) (sums_in rows.new) }
    ensures short { are_in_64_bits rows.new ≡ true → AreShort problem.now }
{
    match rows {
        RowSums::Short(sums) => shift_short(problem, column, area, side, sums.as_mut_slice()),
        RowSums::Wide(sums) => shift_wide(problem, column, area, side, sums.as_mut_slice()),
    }
}
