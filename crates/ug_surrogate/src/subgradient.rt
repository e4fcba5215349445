//! Guesses of multipliers: subgradient steps in whole numbers. What comes out is a list of
//! multipliers and no more; whether it bounds anything well is for `bound` to report.

ghost use Rattle.std.specs.Prelude.{◌≡◌, ℕ, ◌+◌, [], ◌∷◌, ◌++◌, length, IfOk, OnOk};
ghost use Rattle.ug_surrogate.specs.Subgradients.{AreOfRowsBelow};
ghost use Rattle.ug_surrogate.specs.Weights.{AreMultipliers};

use crate::columns::signed;
use crate::multipliers::{Multiplier, Multipliers, Side, has_side};
use std::alloc::{AllocError, Global};
use ug_lists::Items;
use ug_problem::Problem;
use ug_rows::{Extreme, IntBox, Interval, Row, Term, end_at};

// The weight of the objective in a guess that begins with nothing: weights of rows are counted in
// this many parts of one.
const UNITS_OF_WEIGHT: u32 = 4_096;

// How many steps in a row a guess makes that bring nothing, before it ends.
const MOST_IDLE_STEPS: u32 = 24;

// Misses of rows are counted in this many parts of one.
const UNITS_OF_MISS: u32 = 65_536;

// This many digits behind the point has the ratio of a step to the greatest miss.
const BITS_OF_RATIO: u32 = 32;

// The greatest weight.
const MOST: i64 = 4_294_967_295;

// How often the step is branched on.
const STEP_HALVINGS: u32 = 16;

// What a guess works on: the weights of the rows, above 0 for a high side and below 0 for a low
// one, the coefficients of the columns under them, a point at which the weighted sum is least, by
// how much each row misses its side there, and the logarithm of the greatest coefficient of each
// row, in which misses count. Sums and products wrap: a wrong sum makes a poor list, as `bound`
// will report.
#[derive(Drop)]
struct Subgradient {
    weights: Vec<i64>,
    best: Vec<i64>,
    factors: Vec<i128>,
    point: Vec<i32>,
    misses: Vec<i128>,
    sizes: Vec<u32>,
}

impl Subgradient {
    fn new(alloc: Global, rows: usize, columns: usize) -> Result<Subgradient, AllocError> {
        let weights = vec![in alloc; 0i64; rows]?;
        let best = vec![in alloc; 0i64; rows]?;
        let factors = vec![in alloc; 0i128; columns]?;
        let point = vec![in alloc; 0i32; columns]?;
        let misses = vec![in alloc; 0i128; rows]?;
        let sizes = vec![in alloc; 0u32; rows]?;
        Ok(Subgradient {
            weights,
            best,
            factors,
            point,
            misses,
            sizes,
        })
    }
}

// The entry at a place, 0 where there is none.
fn weight_in(weights: &[i64], r: usize) -> i64 {
    weights.get(r).copied().unwrap_or(0)
}

// The size of a row, 0 where it is not there.
fn size_in(sizes: &[u32], r: usize) -> u32 {
    sizes.get(r).copied().unwrap_or(0)
}

// Adds weighted terms to the coefficients of their columns.
fn add_terms(factors: &mut [i128], terms: &[Term], weight: i64) {
    for term in terms {
        let column = term.column as usize;
        if column < factors.len() {
            let product = term.factor.wrapping_mul(i128::from(weight));
            factors[column] = factors[column].wrapping_add(product);
        }
    }
}

fn add_rows(factors: &mut [i128], problem: &Problem, weights: &[i64]) {
    for (r, named) in problem.rows().iter().enumerate() {
        let weight = weight_in(weights, r);
        if weight != 0 {
            add_terms(factors, named.row.terms.as_slice(), weight);
        }
    }
}

// The coefficients of the columns under these weights.
fn weigh_columns(factors: &mut [i128], problem: &Problem, d: u32, weights: &[i64]) {
    for j in 0..factors.len() {
        factors[j] = 0;
    }
    add_terms(factors, problem.objective().terms.as_slice(), i64::from(d));
    add_rows(factors, problem, weights);
}

// The end of each column at which its product is least, and the sum of these products.
fn least_at(point: &mut [i32], factors: &[i128], area: &[Interval]) -> i128 {
    let mut sum = 0i128;
    for j in 0..point.len() {
        if j < factors.len() && j < area.len() {
            point[j] = end_at(Extreme::Least, factors[j], area[j]);
            sum = sum.wrapping_add(factors[j].wrapping_mul(i128::from(point[j])));
        }
    }
    sum
}

// The sum of terms at a point.
fn sum_at(terms: &[Term], point: &[i32]) -> i128 {
    let mut sum = 0i128;
    for term in terms {
        let value = point.get(term.column as usize).copied().unwrap_or(0);
        sum = sum.wrapping_add(term.factor.wrapping_mul(i128::from(value)));
    }
    sum
}

// The side that a weight is of.
fn side_for(row: &Row, weight: i64) -> i128 {
    let side = if weight > 0 { row.high } else { row.low };
    side.unwrap_or(0)
}

// By how much a sum is above a high side, if it is.
fn over(high: Option<i128>, sum: i128) -> i128 {
    match high {
        Some(high) => sum.saturating_sub(high).max(0),
        None => 0,
    }
}

// By how much a sum is below a low side, as a number below 0, if it is.
fn under(low: Option<i128>, sum: i128) -> i128 {
    match low {
        Some(low) => sum.saturating_sub(low).min(0),
        None => 0,
    }
}

// By how much a row misses the side that its weight is of, or without a weight either side.
fn miss(row: &Row, weight: i64, sum: i128) -> i128 {
    if weight != 0 {
        return sum.saturating_sub(side_for(row, weight));
    }
    let above = over(row.high, sum);
    if above != 0 {
        above
    } else {
        under(row.low, sum)
    }
}

// What the sides that are weighed take from the weighted sum.
fn sides_weighed(problem: &Problem, weights: &[i64]) -> i128 {
    let mut sum = 0i128;
    for (r, named) in problem.rows().iter().enumerate() {
        let weight = weight_in(weights, r);
        if weight != 0 {
            let side = side_for(&named.row, weight);
            sum = sum.wrapping_add(side.wrapping_mul(i128::from(weight)));
        }
    }
    sum
}

// The greatest absolute value of a coefficient, and 1 where there is none.
fn greatest(terms: &[Term]) -> i128 {
    let mut most = 1i128;
    for term in terms {
        most = most.max(term.factor.saturating_abs());
    }
    most
}

// The whole part of the logarithm of the greatest coefficient.
fn size_of(terms: &[Term]) -> u32 {
    127u32.saturating_sub(greatest(terms).leading_zeros())
}

fn size_all(sizes: &mut [u32], problem: &Problem) {
    for (r, named) in problem.rows().iter().enumerate() {
        if r < sizes.len() {
            sizes[r] = size_of(named.row.terms.as_slice());
        }
    }
}

// A miss counted in parts of the row's size.
fn part_of(miss: i128, size: u32) -> i128 {
    miss.wrapping_mul(i128::from(UNITS_OF_MISS))
        .wrapping_shr(size)
}

// By how much each row misses its side, counted so, and the most that one does.
fn miss_all(
    misses: &mut [i128],
    problem: &Problem,
    weights: &[i64],
    point: &[i32],
    sizes: &[u32],
) -> i128 {
    let mut most = 0i128;
    for (r, named) in problem.rows().iter().enumerate() {
        if r < misses.len() {
            let sum = sum_at(named.row.terms.as_slice(), point);
            let miss = miss(&named.row, weight_in(weights, r), sum);
            misses[r] = part_of(miss, size_in(sizes, r));
            most = most.max(misses[r].saturating_abs());
        }
    }
    most
}

// A weight that the sides of the row allow, near this one.
fn allowed(row: &Row, weight: i64) -> i64 {
    let low = if row.low.is_some() { -MOST } else { 0 };
    let high = if row.high.is_some() { MOST } else { 0 };
    weight.max(low).min(high)
}

// How far the weight of a row goes that misses its side by so much, in weights of the row, which
// are the smaller the larger its coefficients are.
fn change(miss: i128, size: u32, ratio: i128) -> i64 {
    let by = miss
        .wrapping_mul(ratio)
        .wrapping_shr(BITS_OF_RATIO)
        .wrapping_shr(size);
    i64::try_from(by).unwrap_or(0)
}

// One step of a weight.
fn stepped(row: &Row, weight: i64, by: i64) -> i64 {
    allowed(row, weight.saturating_add(by))
}

// One step of all weights.
fn step_all(weights: &mut [i64], problem: &Problem, misses: &[i128], sizes: &[u32], ratio: i128) {
    for (r, named) in problem.rows().iter().enumerate() {
        let miss = misses.get(r).copied().unwrap_or(0);
        if miss != 0 && r < weights.len() {
            let by = change(miss, size_in(sizes, r), ratio);
            weights[r] = stepped(&named.row, weights[r], by);
        }
    }
}

fn copy_into(to: &mut [i64], from: &[i64]) {
    for r in 0..to.len() {
        to[r] = weight_in(from, r);
    }
}

// The weights of the multipliers that it begins with.
fn begin(weights: &mut [i64], list: &[Multiplier]) {
    for multiplier in list {
        let r = multiplier.row as usize;
        if r < weights.len() {
            weights[r] = weights[r].saturating_add(signed(*multiplier));
        }
    }
}

// The greatest coefficient of the objective, times its weight: how far a weight may have to go.
fn first_step(problem: &Problem, d: u32) -> i64 {
    let most = greatest(problem.objective().terms.as_slice());
    let step = most.saturating_mul(i128::from(d)).min(i128::from(MOST));
    i64::try_from(step).unwrap_or(MOST)
}

// The weighted sum at its least over the box, rounded to what fits.
fn weighted(problem: &Problem, d: u32, weights: &[i64], least: i128) -> i128 {
    let constant = problem.objective().constant.saturating_mul(i128::from(d));
    let sum = least.saturating_add(constant);
    sum.saturating_sub(sides_weighed(problem, weights))
}

impl Subgradient {
    // The least weighted sum under the weights, and by how much the rows are missed there.
    fn evaluate(&mut self, problem: &Problem, area: &[Interval], d: u32) -> Evaluation {
        let weights = self.weights.as_slice();
        weigh_columns(self.factors.as_mut_slice(), problem, d, weights);
        let least = least_at(self.point.as_mut_slice(), self.factors.as_slice(), area);
        let sum = weighted(problem, d, weights, least);
        let misses = self.misses.as_mut_slice();
        let sizes = self.sizes.as_slice();
        let most = miss_all(misses, problem, weights, self.point.as_slice(), sizes);
        Evaluation { sum, most }
    }

    // Keeps the weights where their sum is the greatest so far.
    fn keep(&mut self, best: i128, sum: i128) -> i128 {
        if sum <= best {
            return best;
        }
        copy_into(self.best.as_mut_slice(), self.weights.as_slice());
        sum
    }

    // A step: so far goes the weight of the row that misses most.
    fn step(&mut self, problem: &Problem, size: i64, most: i128) {
        let misses = self.misses.as_slice();
        let sizes = self.sizes.as_slice();
        let whole = i128::from(size).wrapping_shl(BITS_OF_RATIO);
        let ratio = whole.checked_div(most).unwrap_or(0);
        step_all(self.weights.as_mut_slice(), problem, misses, sizes, ratio);
    }

    // This many steps at most, which are branched on some times on the way. It ends where no row is
    // missed, or where many steps in a row bring nothing.
    fn search(&mut self, problem: &Problem, area: &[Interval], d: u32, steps: u32) {
        size_all(self.sizes.as_mut_slice(), problem);
        let mut best = i128::MIN;
        let mut step = first_step(problem, d);
        let mut idle = 0u32;
        let turns = steps / STEP_HALVINGS;
        for k in 0..steps {
            let evaluation = self.evaluate(problem, area, d);
            idle = if evaluation.sum > best {
                0
            } else {
                idle.saturating_add(1)
            };
            best = self.keep(best, evaluation.sum);
            if evaluation.most == 0 || idle >= MOST_IDLE_STEPS {
                return;
            }
            self.step(problem, step, evaluation.most);
            if k % (turns + 1) == turns {
                step /= 2;
            }
        }
    }
}

// The weighted sum at a point, and the most by which a row misses its side there.
#[derive(Clone, Copy)]
struct Evaluation {
    sum: i128,
    most: i128,
}

// A weight of a row as a multiplier.
fn multiplier(row: u32, weight: i64) -> Multiplier
    ensures { result.row ≡ row }
{
    Multiplier {
        row,
        side: if weight > 0 { Side::High } else { Side::Low },
        weight: u32::try_from(weight.unsigned_abs()).unwrap_or(u32::MAX),
    }
}

// Adds a multiplier.
fn push(list: &mut Vec<Multiplier>, multiplier: Multiplier) -> Result<(), AllocError>
    ensures { OnOk result (list.new.items ≡ list.old.items ++ multiplier ∷ []) }
{
    list.push(multiplier)?;
    Ok(())
}

// Adds the multiplier of a row, if the row has the side.
fn push_listed(
    list: &mut Vec<Multiplier>,
    problem: &Problem,
    multiplier: Multiplier,
) -> Result<(), AllocError>
    requires { AreOfRowsBelow problem.now multiplier.row list.old.items }
    ensures { OnOk result (AreOfRowsBelow problem.now (multiplier.row + 1) list.new.items) }
{
    if has_side(problem, multiplier) {
        push(list, multiplier)
    } else {
        Ok(())
    }
}

// Adds the multiplier of a row, if it has a weight and the row has the side.
#[tactic(auto, using(crate::proofs::Listed::none_added))]
fn push_weight(
    list: &mut Vec<Multiplier>,
    problem: &Problem,
    row: u32,
    weight: i64,
) -> Result<(), AllocError>
    requires { AreOfRowsBelow problem.now row list.old.items }
    ensures { OnOk result (AreOfRowsBelow problem.now (row + 1) list.new.items) }
{
    if weight == 0 {
        return Ok(());
    }
    push_listed(list, problem, multiplier(row, weight))
}

// The multipliers of the rows that have a weight.
#[tactic(auto, using(crate::proofs::Listed::none_yet))]
fn listed(alloc: Global, problem: &Problem, weights: &[i64]) -> Result<Vec<Multiplier>, AllocError>
    ensures { IfOk result (λ list. (n : ℕ) × AreOfRowsBelow problem.now n list.items) }
{
    let mut list = Vec::new(alloc);
    let rows = u32::try_from(weights.len()).unwrap_or(0);
    for row in 0..rows {
        let weight = weight_in(weights, row as usize);
        push_weight(&mut list, problem, row, weight)?;
    }
    Ok(list)
}

/// Guesses multipliers over a box: this many steps from these, each of which weighs the rows more
/// that the point of the least weighted sum misses, and those less that it satisfies with some
/// left. The steps become smaller, and fewer are made where they bring nothing. A step costs the
/// pairs of the problem.
pub fn improved(
    alloc: Global,
    problem: &Problem,
    area: &IntBox,
    from: &Multipliers,
    steps: u32,
) -> Result<Multipliers, AllocError>
    requires { AreMultipliers problem.now from.now }
    ensures { IfOk result (AreMultipliers problem.now) }
{
    let mut subgradient = Subgradient::new(alloc, problem.rows().len(), problem.columns().len())?;
    begin(subgradient.weights.as_mut_slice(), from.list.as_slice());
    subgradient.search(problem, area.as_slice(), from.d, steps);
    let list = listed(alloc, problem, subgradient.best.as_slice());
    drop(subgradient);
    Ok(Multipliers {
        d: from.d,
        list: Items::from_vec(list?),
    })
}

/// Guesses multipliers over a box from none, by this many steps.
pub fn subgradient_multipliers(
    alloc: Global,
    problem: &Problem,
    area: &IntBox,
    steps: u32,
) -> Result<Multipliers, AllocError>
    ensures { IfOk result (AreMultipliers problem.now) }
{
    let none = Multipliers {
        d: UNITS_OF_WEIGHT,
        list: Items::new(alloc),
    };
    let subgradient = improved(alloc, problem, area, &none, steps);
    drop(none);
    subgradient
}
