ghost use Rattle.std.specs.Prelude.{◌≡◌, ◌+◌, ◌*◌, ◌≤◌, length};
ghost use Rattle.std.specs.List.{flat_map};
ghost use Rattle.ug_fields.specs.Spelling.{optional_field};
ghost use Rattle.ug_records.specs.Spelling.{column_fields, row_fields, record_of};
ghost use Rattle.ug_records.specs.Lengths.{capped};

use ug_problem::{Column, NamedRow, Problem};

/// How many bytes the record of the problem has, or 2^64 - 1 where it has more. It takes no
/// memory.
#[tactic(auto, using(crate::proofs::Sizes::record_sum))]
pub fn record_length(problem: &Problem) -> u64
    ensures { result ≡ capped (length (record_of problem.now)) }
{
    let columns = columns_length(problem.columns()).saturating_add(8);
    let terms = terms_length(problem.objective().terms.len() as u64).saturating_add(18);
    columns
        .saturating_add(rows_length(problem.rows()))
        .saturating_add(terms)
}

#[tactic(auto, using(crate::proofs::Sizes::column_sum))]
fn columns_length(columns: &[Column]) -> u64
    ensures { result ≡ capped (length (flat_map column_fields columns.now)) }
{
    let mut total = 0u64;
    for column in columns {
        total = total.saturating_add(column_length(column));
    }
    total
}

#[tactic(auto, using(crate::proofs::Sizes::one_column))]
fn column_length(column: &Column) -> u64
    ensures { result ≡ capped (length (column_fields column.now)) }
{
    (column.name.len() as u64).saturating_add(9)
}

#[tactic(auto, using(crate::proofs::Sizes::row_sum))]
fn rows_length(rows: &[NamedRow]) -> u64
    ensures { result ≡ capped (length (flat_map row_fields rows.now)) }
{
    let mut total = 0u64;
    for named in rows {
        total = total.saturating_add(row_length(named));
    }
    total
}

#[tactic(auto, using(crate::proofs::Sizes::one_row))]
fn row_length(named: &NamedRow) -> u64
    ensures { result ≡ capped (length (row_fields named.now)) }
{
    let sides = side_length(named.row.low) + side_length(named.row.high) + 1;
    let front = (named.name.len() as u64).saturating_add(sides);
    front.saturating_add(terms_length(named.row.terms.len() as u64))
}

#[tactic(auto, using(crate::proofs::Sizes::some_side))]
fn side_length(side: Option<i128>) -> u64
    ensures value { result ≡ length (optional_field side) }
    ensures small { result ≤ 17 }
{
    match side {
        None => 1,
        Some(_) => 17,
    }
}

// This many terms, with their count.
fn terms_length(count: u64) -> u64
    ensures { result ≡ capped (4 + 20 * count) }
{
    count.saturating_mul(20).saturating_add(4)
}
