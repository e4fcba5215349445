ghost use Rattle.std.specs.Prelude.{◌≡◌, [], ◌∷◌, ◌++◌, map, None, Some, MatchResult};
ghost use Rattle.std.specs.List.{zip};
ghost use Rattle.ug_drafts.specs.Bounds.{IsBox, is_infinite, bound_or};
ghost use Rattle.ug_drafts.specs.FirstFaults.{IsOf, first_fault};
ghost use Rattle.ug_drafts.specs.Made.{low_kept, high_kept, column_kind, column_fault_kept, made_column};

use crate::bound::Bound;
use crate::column::ColumnDraft;
use crate::fault::{Kind, MpsError, MpsFault};
use std::alloc::Global;
use ug_lists::Text;
use ug_problem::Column;

/// The lower bound of a column: 0 where none was set.
pub fn low_kept(draft: &ColumnDraft) -> Bound
    ensures { result ≡ low_kept draft.now }
{
    draft.low.unwrap_or(Bound::Finite(0))
}

/// The upper bound of a column: plus infinity where none was set.
pub fn high_kept(draft: &ColumnDraft) -> Bound
    ensures { result ≡ high_kept draft.now }
{
    draft.high.unwrap_or(Bound::Infinite)
}

/// Whether a bound is infinite.
pub fn is_infinite(bound: Bound) -> bool
    ensures { result ≡ is_infinite bound }
{
    match bound {
        Bound::Infinite => true,
        Bound::Finite(_) => false,
    }
}

/// Returns why a column cannot be one of a problem, if it cannot.
pub fn column_kind(boxed: Option<u32>, draft: &ColumnDraft) -> Option<Kind>
    ensures { result ≡ column_kind boxed draft.now }
{
    if !draft.integer {
        return Some(Kind::Continuous);
    }
    let infinite = is_infinite(low_kept(draft)) || is_infinite(high_kept(draft));
    if boxed.is_none() && infinite {
        return Some(Kind::Unbounded);
    }
    None
}

// A bound, where an infinite one is this.
fn bound_or(infinite: i32, bound: Bound) -> i32
    ensures { result ≡ bound_or infinite bound }
{
    match bound {
        Bound::Infinite => infinite,
        Bound::Finite(bound) => bound,
    }
}

// A column of the problem, or its fault.
fn column_of(boxed: Option<u32>, name: Text, draft: ColumnDraft) -> Result<Column, MpsFault>
    requires { IsBox boxed }
    ensures { MatchResult result
        (λ column. (column_fault_kept boxed (name, draft) ≡ None)
        × (column ≡ made_column boxed (name, draft)))
        (λ fault. column_fault_kept boxed (name, draft) ≡ Some fault) }
{
    if let Some(kind) = column_kind(boxed, &draft) {
        return Err(MpsFault {
            line: draft.line,
            kind,
            word: Some(name),
        });
    }
    let infinite = boxed.unwrap_or(0) as i32;
    Ok(Column {
        name,
        low: bound_or(-infinite, low_kept(&draft)),
        high: bound_or(infinite, high_kept(&draft)),
    })
}

/// The columns of the problem, or the fault of the first one that has one.
pub fn make_columns(
    alloc: Global,
    boxed: Option<u32>,
    names: Vec<Text>,
    drafts: Vec<ColumnDraft>,
) -> Result<Vec<Column>, MpsError>
    requires { IsBox boxed }
    ensures { let ps = zip names.items drafts.items in MatchResult result
        (λ columns. (first_fault (column_fault_kept boxed) ps ≡ None)
        × (columns.items ≡ map (made_column boxed) ps))
        (IsOf (first_fault (column_fault_kept boxed) ps)) }
{
    let mut columns = Vec::with_capacity(alloc, drafts.len())?;
    for (name, draft) in names.into_iter().zip(drafts) {
        match push_column(&mut columns, boxed, name, draft) {
            Ok(()) => {}
            Err(error) => {
                drop(columns);
                return Err(error);
            }
        }
    }
    Ok(columns)
}

// Adds a column of the problem, or reports its fault.
fn push_column(
    columns: &mut Vec<Column>,
    boxed: Option<u32>,
    name: Text,
    draft: ColumnDraft,
) -> Result<(), MpsError>
    requires { IsBox boxed }
    ensures { MatchResult result
        (λ _. (column_fault_kept boxed (name, draft) ≡ None)
        × (columns.new.items ≡ columns.old.items ++ made_column boxed (name, draft) ∷ []))
        (IsOf (column_fault_kept boxed (name, draft))) }
{
    match column_of(boxed, name, draft) {
        Ok(column) => {
            columns.push(column)?;
            Ok(())
        }
        Err(fault) => Err(MpsError::Fault(fault)),
    }
}
