//! The weighted sum column by column.

ghost use Rattle.std.specs.Prelude.{◌≡◌, pos, ◌≤◌, ◌<◌, ◌+◌, ◌*◌, ◌^◌, ◌+ℤ◌, ◌-ℤ◌, ◌*ℤ◌, length, unsigned_abs};
ghost use Rattle.ug_problem.specs.Limits.{IsProblem};
ghost use Rattle.ug_surrogate.specs.Columns.{AreFew, IsRowPlace, IsSomewhereSmall, constant_of, factor_of, parts_of, signed_weight, weighed, weight_in, weight_on, weight_there, weighted_side, weighted_side_size};
ghost use Rattle.ug_surrogate.specs.Weights.{AreMultipliers, AreRising, HasSide, side_under};

use crate::exact::{minus, plus, times};
use crate::magnitude::side_under;
use crate::multipliers::{Multiplier, Multipliers, Side};
use ug_problem::{ColumnEntry, Problem};

/// A weight with the sign that its side gives the row's sum.
pub fn signed(multiplier: Multiplier) -> i64
    ensures value { result ≡ signed_weight multiplier }
    ensures small { unsigned_abs result ≤ 2 ^ 32 }
{
    match multiplier.side {
        Side::Low => -i64::from(multiplier.weight),
        Side::High => i64::from(multiplier.weight),
    }
}

// The first multiplier of this row or a later one.
fn first_from(list: &[Multiplier], row: u32) -> usize
    requires { AreRising list.now }
    ensures { IsRowPlace list.now row result }
{
    list.partition_point(|multiplier| multiplier.row < row)
}

// The signed weight of this multiplier, if there is one and it is of this row.
fn weight_here(list: &[Multiplier], at: usize, row: u32) -> i64
    ensures value { result ≡ weight_there row list.now at }
    ensures small { unsigned_abs result ≤ 2 ^ 32 }
{
    if at < list.len() && list[at].row == row {
        signed(list[at])
    } else {
        0
    }
}

// The signed weights of a row, of which there are at most two.
#[tactic(auto, using(crate::proofs::Places::placed_weights))]
fn weight_of_row(list: &[Multiplier], row: u32) -> i64
    requires { AreRising list.now }
    ensures value { result ≡ weight_on row list.now }
    ensures small { unsigned_abs result ≤ 2 ^ 33 }
{
    let at = first_from(list, row);
    weight_here(list, at, row) + weight_here(list, at + 1, row)
}

// The weight of a row, which behind the last row is the objective's.
fn weight_at(rows: usize, m: &Multipliers, row: u32) -> i64
    requires { AreRising m.now.list }
    ensures value { result ≡ weight_in rows m.now row }
    ensures small { unsigned_abs result ≤ 2 ^ 33 }
{
    if row as usize == rows {
        i64::from(m.d)
    } else {
        weight_of_row(m.list.as_slice(), row)
    }
}

// A total and one weighted coefficient more.
fn add_weighted(total: i128, weight: i64, factor: i128) -> i128
    requires total { unsigned_abs total ≤ 9 * 10 ^ 37 }
    requires weight { unsigned_abs weight ≤ 2 ^ 33 }
    requires factor { unsigned_abs factor ≤ 10 ^ 24 }
    ensures value { result ≡ total +ℤ (weight *ℤ factor) }
    ensures small { unsigned_abs result ≤ unsigned_abs total + 10 ^ 24 * 2 ^ 33 }
{
    plus(total, times(i128::from(weight), factor))
}

// The coefficients of a column where it stands, each times the weight of its row.
fn weigh(rows: usize, m: &Multipliers, entries: &[ColumnEntry]) -> i128
    requires multipliers { AreRising m.now.list }
    requires entries { AreFew entries.now }
    ensures value { result ≡ weighed rows m.now entries.now }
    ensures small { unsigned_abs result ≤ 10 ^ 38 }
{
    let mut total = 0;
    for entry in entries {
        total = add_weighted(total, weight_at(rows, m, entry.row), entry.factor);
    }
    total
}

/// The coefficient of a column in the weighted sum. It takes no memory.
#[tactic(auto, using(crate::proofs::Stands::weighed_is, crate::proofs::Stands::few_entries))]
pub fn factor(problem: &Problem, m: &Multipliers, column: usize) -> i128
    requires multipliers { AreMultipliers problem.now m.now }
    requires there { column < length problem.now.columns }
    ensures value { result ≡ factor_of column (parts_of problem.now m.now) }
    ensures small { unsigned_abs result ≤ 10 ^ 38 }
    ensures problem { IsProblem problem.now }
{
    weigh(problem.rows().len(), m, problem.entries(column))
}

// A total less the weighted side of a row.
fn less_side(problem: &Problem, total: i128, multiplier: Multiplier) -> i128
    requires side { HasSide problem.now multiplier }
    requires small { unsigned_abs total + weighted_side_size problem.now multiplier ≤ 10 ^ 38 }
    ensures value { result ≡ total -ℤ weighted_side problem.now multiplier }
    ensures small { unsigned_abs result
        ≤ unsigned_abs total + weighted_side_size problem.now multiplier }
    ensures within { unsigned_abs result ≤ 10 ^ 38 }
{
    let weight = i128::from(signed(multiplier));
    minus(total, times(weight, side_under(problem, multiplier)))
}

// The objective's constant times its weight.
#[tactic(auto, using(crate::proofs::Sizes::objective_fits))]
fn objective_constant(problem: &Problem, m: &Multipliers) -> i128
    requires { IsSomewhereSmall problem.now m.now }
    ensures { result ≡ pos m.now.d *ℤ problem.now.objective.constant }
{
    times(i128::from(m.d), problem.objective().constant)
}

/// What no column changes in the weighted sum. It takes no memory.
pub fn constant(problem: &Problem, m: &Multipliers) -> i128
    requires multipliers { AreMultipliers problem.now m.now }
    requires small { IsSomewhereSmall problem.now m.now }
    ensures value { result ≡ constant_of problem.now m.now }
    ensures small { unsigned_abs result ≤ 10 ^ 38 }
{
    let mut total = objective_constant(problem, m);
    for multiplier in m.list.as_slice() {
        total = less_side(problem, total, *multiplier);
    }
    total
}
