ghost use Rattle.std.specs.Prelude.{◌≡◌, ◌+◌, ◌<◌, ◌≤◌, ◌*◌, IfOk, sum};
ghost use Rattle.ug_gen.specs.Draws.{each};
ghost use Rattle.ug_gen.specs.Stated.{column, named, profit_term, row as stated_row, weight, weight_term};

use crate::draws::Draws;
use std::alloc::{AllocError, Global};
use ug_lists::{Items, Text};
use ug_problem::{Column, NamedRow};
use ug_rows::{Row, Term};

// A letter and a number.
fn name(alloc: Global, letter: u8, number: u32) -> Result<Text, AllocError>
    ensures { IfOk result (λ name. name ≡ named letter number) }
{
    let digits = number.to_string(alloc)?;
    let name = [&[letter], digits.as_bytes()].concat(alloc);
    drop(digits);
    match name {
        Ok(name) => Ok(Text::from_vec(name)),
        Err(error) => Err(error),
    }
}

/// The columns, each of which is taken or not.
#[tactic(auto, using(crate::proofs::Rules::each_more))]
pub fn columns(alloc: Global, size: u32) -> Result<Vec<Column>, AllocError>
    requires { size ≤ 40 }
    ensures { IfOk result (λ columns. columns.items ≡ each column size) }
{
    let mut columns = Vec::new(alloc);
    for j in 0..size {
        let name = name(alloc, b'C', j + 1)?;
        columns.push(Column {
            name,
            low: 0,
            high: 1,
        })?;
    }
    Ok(columns)
}

/// The profits, negated: what is maximised is kept as what is minimised.
#[tactic(auto, using(crate::proofs::Rules::each_more))]
pub fn profits(alloc: Global, draws: &Draws, size: u32) -> Result<Vec<Term>, AllocError>
    requires size { size ≤ 40 }
    requires drawn { 4 * size ≤ draws.now.count }
    ensures { IfOk result (λ terms. terms.items ≡ each (profit_term draws.now.seed) size) }
{
    let mut terms = Vec::new(alloc);
    for j in 0..size {
        terms.push(Term {
            column: j,
            factor: -i128::from(draws.profit(j)),
        })?;
    }
    Ok(terms)
}

// The weights of a row, counted from 1.
#[tactic(auto, using(crate::proofs::Rules::each_more))]
fn weights(alloc: Global, draws: &Draws, row: u32, size: u32) -> Result<Vec<Term>, AllocError>
    requires row { row ≤ 3 }
    requires size { size ≤ 40 }
    requires drawn { 4 * size ≤ draws.now.count }
    ensures { IfOk result (λ terms. terms.items ≡ each (weight_term draws.now.seed row) size) }
{
    let mut terms = Vec::new(alloc);
    for j in 0..size {
        terms.push(Term {
            column: j,
            factor: i128::from(draws.weight(row, j)),
        })?;
    }
    Ok(terms)
}

// The sum of the weights of a row, counted from 1.
#[tactic(auto, using(crate::proofs::Rules::each_more, crate::proofs::Rules::sum_more))]
fn total(draws: &Draws, row: u32, size: u32) -> u32
    requires row { row ≤ 3 }
    requires size { size ≤ 40 }
    requires drawn { 4 * size ≤ draws.now.count }
    ensures { result ≡ sum (each (weight draws.now.seed row) size) }
{
    let mut total = 0;
    for j in 0..size {
        total += draws.weight(row, j);
    }
    total
}

/// A row, counted from 1: at most half of all weights, rounded down.
pub fn row(alloc: Global, draws: &Draws, row: u32, size: u32) -> Result<NamedRow, AllocError>
    requires row { row ≤ 3 }
    requires size { size ≤ 40 }
    requires drawn { 4 * size ≤ draws.now.count }
    ensures { IfOk result (λ made. made ≡ stated_row draws.now.seed size row) }
{
    let terms = weights(alloc, draws, row, size)?;
    let most = total(draws, row, size) / 2;
    Ok(NamedRow {
        name: name(alloc, b'R', row)?,
        row: Row {
            terms: Items::from_vec(terms),
            low: None,
            high: Some(i128::from(most)),
        },
    })
}
