ghost use Rattle.std.specs.Prelude.{◌≡◌, ◌+◌, ◌<◌, ◌≤◌, ◌*◌, ◌++◌, ℕ, [], ◌∷◌, IfOk, OnOk};
ghost use Rattle.ug_problem.specs.Instances.{instance_of};
ghost use Rattle.ug_gen.specs.Stated.{instance, objective as stated_objective, row as stated_row};

use crate::draws::Draws;
use crate::parts::{columns, profits, row};
use std::alloc::{AllocError, Global};
use ug_lists::Items;
use ug_problem::{Columns, NamedRow, NamedRows, Problem, ProblemError};
use ug_rows::Objective;

// Adds a row, counted from 1.
fn push_row(
    alloc: Global,
    draws: &Draws,
    number: u32,
    size: u32,
    rows: &mut Vec<NamedRow>,
) -> Result<(), AllocError>
    requires number { number ≤ 3 }
    requires size { size ≤ 40 }
    requires drawn { 4 * size ≤ draws.now.count }
    ensures { OnOk result
        (rows.new.items ≡ rows.old.items ++ stated_row draws.now.seed size number ∷ []) }
{
    rows.push(row(alloc, draws, number, size)?)?;
    Ok(())
}

// Adds the three rows.
fn push_rows(
    alloc: Global,
    draws: &Draws,
    size: u32,
    rows: &mut Vec<NamedRow>,
) -> Result<(), AllocError>
    requires size { size ≤ 40 }
    requires drawn { 4 * size ≤ draws.now.count }
    ensures { OnOk result (rows.new.items ≡ rows.old.items ++ stated_row draws.now.seed size 1
        ∷ stated_row draws.now.seed size 2 ∷ stated_row draws.now.seed size 3 ∷ []) }
{
    push_row(alloc, draws, 1, size, rows)?;
    push_row(alloc, draws, 2, size, rows)?;
    push_row(alloc, draws, 3, size, rows)
}

// Returns the objective, which is minimised.
fn objective(alloc: Global, draws: &Draws, size: u32) -> Result<Objective, AllocError>
    requires size { size ≤ 40 }
    requires drawn { 4 * size ≤ draws.now.count }
    ensures { IfOk result (λ made. made ≡ stated_objective draws.now.seed size) }
{
    Ok(Objective {
        terms: Items::from_vec(profits(alloc, draws, size)?),
        constant: 0,
        maximise: true,
        scale: 0,
    })
}

// What the instance is made of.
#[derive(Drop)]
struct Parts {
    columns: Columns,
    rows: NamedRows,
    objective: Objective,
}

// The parts of the instance of these draws.
fn stated_parts(alloc: Global, draws: &Draws, size: u32) -> Result<Parts, AllocError>
    requires size { size ≤ 40 }
    requires drawn { 4 * size ≤ draws.now.count }
    ensures { IfOk result (λ parts. instance_of parts.columns parts.rows parts.objective
        ≡ instance draws.now.seed size) }
{
    let columns = match columns(alloc, size) {
        Ok(columns) => columns,
        Err(error) => return Err(error),
    };
    let mut rows = Vec::new(alloc);
    if let Err(error) = push_rows(alloc, draws, size, &mut rows) {
        drop(columns);
        drop(rows);
        return Err(error);
    }
    match objective(alloc, draws, size) {
        Ok(objective) => Ok(Parts {
            columns: Items::from_vec(columns),
            rows: Items::from_vec(rows),
            objective,
        }),
        Err(error) => {
            drop(columns);
            drop(rows);
            Err(error)
        }
    }
}

/// The instance of a seed, 1 to 2147483646, and of a size, the number of its columns, 1 to 40.
pub fn make(alloc: Global, seed: u32, size: u32) -> Result<Problem, AllocError>
    requires least_seed { 1 ≤ seed }
    requires greatest_seed { seed ≤ 2147483646 }
    requires least_size { 1 ≤ size }
    requires greatest_size { size ≤ 40 }
    ensures { IfOk result (λ problem. problem ≡ instance seed size) }
{
    let draws = Draws::new(alloc, seed, 4 * size)?;
    let parts = stated_parts(alloc, &draws, size);
    drop(draws);
    let parts = match parts {
        Ok(parts) => parts,
        Err(error) => return Err(error),
    };
    match Problem::new(alloc, parts.columns, parts.rows, parts.objective) {
        Ok(problem) => Ok(problem),
        Err(error) => match error {
            ProblemError::Memory => Err(AllocError),
            _ => unreachable!(),
        },
    }
}
