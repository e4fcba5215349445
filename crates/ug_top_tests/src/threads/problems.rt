//! Small problems for tests, each made of its record.

use std::alloc::{AllocError, Global};
use ug_problem::Problem;
use ug_records::from_record;

/// A row: the least and the greatest sum, and the coefficient of each column, none of which is 0.
#[derive(Clone, Copy)]
pub struct SmallRow<'a> {
    pub low: Option<i128>,
    pub high: Option<i128>,
    pub factors: &'a [i128],
}

/// A problem: the bounds of each column, the rows, and the objective's coefficients, which is
/// minimised.
#[derive(Clone, Copy)]
pub struct Small<'a> {
    pub columns: &'a [(i32, i32)],
    pub rows: &'a [SmallRow<'a>],
    pub objective: &'a [i128],
}

/// The problem, if it is one.
pub fn made(alloc: Global, small: &Small<'_>) -> Option<Problem> {
    let mut bytes = Vec::new(alloc);
    let problem = match put_problem(&mut bytes, small) {
        Ok(()) => from_record(alloc, &bytes).ok(),
        Err(_) => None,
    };
    drop(bytes);
    problem
}

// Puts the problem's record.
fn put_problem(bytes: &mut Vec<u8>, small: &Small<'_>) -> Result<(), AllocError> {
    put_columns(bytes, small.columns)?;
    put_rows(bytes, small.rows)?;
    // Minimised, without decimals or a constant.
    bytes.extend_from_slice(&[0; 18])?;
    put_terms(bytes, small.objective)
}

fn put_columns(bytes: &mut Vec<u8>, columns: &[(i32, i32)]) -> Result<(), AllocError> {
    put_count(bytes, columns.len())?;
    for column in columns {
        put_column(bytes, *column)?;
    }
    Ok(())
}

fn put_column(bytes: &mut Vec<u8>, (low, high): (i32, i32)) -> Result<(), AllocError> {
    put_name(bytes)?;
    bytes.extend_from_slice(&low.to_be_bytes())?;
    bytes.extend_from_slice(&high.to_be_bytes())
}

fn put_rows(bytes: &mut Vec<u8>, rows: &[SmallRow<'_>]) -> Result<(), AllocError> {
    put_count(bytes, rows.len())?;
    for row in rows {
        put_row(bytes, row)?;
    }
    Ok(())
}

fn put_row(bytes: &mut Vec<u8>, row: &SmallRow<'_>) -> Result<(), AllocError> {
    put_name(bytes)?;
    put_side(bytes, row.low)?;
    put_side(bytes, row.high)?;
    put_terms(bytes, row.factors)
}

fn put_count(bytes: &mut Vec<u8>, count: usize) -> Result<(), AllocError> {
    bytes.extend_from_slice(&u32::try_from(count).unwrap_or(u32::MAX).to_be_bytes())
}

// Names need not differ.
fn put_name(bytes: &mut Vec<u8>) -> Result<(), AllocError> {
    bytes.extend_from_slice(&[1, b'x'])
}

fn put_side(bytes: &mut Vec<u8>, side: Option<i128>) -> Result<(), AllocError> {
    match side {
        None => Ok(bytes.push(0)?),
        Some(value) => {
            bytes.push(1)?;
            bytes.extend_from_slice(&value.to_be_bytes())
        }
    }
}

fn put_terms(bytes: &mut Vec<u8>, factors: &[i128]) -> Result<(), AllocError> {
    put_count(bytes, factors.len())?;
    let mut column = 0u32;
    for factor in factors {
        bytes.extend_from_slice(&column.to_be_bytes())?;
        bytes.extend_from_slice(&factor.to_be_bytes())?;
        column = column.wrapping_add(1);
    }
    Ok(())
}
