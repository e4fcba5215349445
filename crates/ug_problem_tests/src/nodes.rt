ghost use Rattle.std.specs.Prelude.{◌≡◌, length, IfOk};

use crate::expect::{holds, same};
use std::alloc::{AllocError, Global};
use std::process::Abort;
use ug_nodes::{AreaError, Change, Changes, area_of, changes_of};
use ug_rows::{IntBox, Interval};

// The box of two columns with these bounds.
fn area(alloc: Global, x: (i32, i32), y: (i32, i32)) -> Result<IntBox, AllocError>
    ensures { IfOk result (λ area. length area ≡ 2) }
{
    let x = Interval {
        low: x.0,
        high: x.1,
    };
    let y = Interval {
        low: y.0,
        high: y.1,
    };
    Ok(IntBox::from_vec(Vec::from_slice(alloc, &[x, y])?))
}

// The box of two columns from 0 to 7.
fn square(alloc: Global) -> Result<IntBox, AllocError>
    ensures { IfOk result (λ area. length area ≡ 2) }
{
    area(alloc, (0, 7), (0, 7))
}

// A column, and its new low and high bound.
type Told = (u32, i32, i32);

// The changes, if their columns rise.
fn list(alloc: Global, told: &[Told]) -> Result<Option<Changes>, AllocError> {
    let mut changes = Vec::new(alloc);
    for (column, low, high) in told {
        changes.push(Change {
            column: *column,
            low: *low,
            high: *high,
        })?;
    }
    Ok(Changes::checked(changes))
}

// The same of changes whose columns do.
fn listed(rt: &impl Abort, alloc: Global, told: &[Told]) -> Changes {
    let changes = list(alloc, told).expect(rt, "memory");
    changes.expect(rt, "rising")
}

// Whether these are the changes.
fn are(changes: &Changes, told: &[Told]) -> bool {
    let changes = changes.as_slice();
    for (change, told) in changes.iter().zip(told) {
        if (change.column, change.low, change.high) != *told {
            return false;
        }
    }
    changes.len() == told.len()
}

// Whether the changes spell this box.
fn spell(alloc: Global, root: &IntBox, changes: &Changes, area: &IntBox) -> bool {
    let Ok(spelled) = area_of(alloc, root, changes) else {
        return false;
    };
    let is_same = spelled.as_slice() == area.as_slice();
    drop(spelled);
    is_same
}

// Whether the box whose first column has these bounds is spelled so below the square, and read
// back.
fn is_spelled_so(rt: &impl Abort, alloc: Global, x: (i32, i32), told: &[Told]) -> bool {
    let root = square(alloc).expect(rt, "memory");
    let area = area(alloc, x, (0, 7)).expect(rt, "memory");
    let changes = changes_of(alloc, &root, &area).expect(rt, "memory");
    let is_so = are(&changes, told) && spell(alloc, &root, &changes, &area);
    drop(changes);
    drop(area);
    drop(root);
    is_so
}

#[test]
fn spells_a_box_and_reads_it_back(rt: HostRuntime) {
    let alloc = rt.alloc();
    holds(&rt, is_spelled_so(&rt, alloc, (4, 7), &[(0, 4, 7)]));
    holds(&rt, is_spelled_so(&rt, alloc, (0, 7), &[]));
}

// Why `area_of` makes no box of these changes below the square; none where it makes one.
fn refused(rt: &impl Abort, alloc: Global, told: &[Told]) -> Option<AreaError> {
    let root = square(alloc).expect(rt, "memory");
    let changes = listed(rt, alloc, told);
    let error = area_of(alloc, &root, &changes).err();
    drop(changes);
    drop(root);
    error
}

// Changes, and the column of the first one that is invalid.
const FIRST_BAD: &[(&[Told], Option<AreaError>)] = &[
    (
        &[(0, 4, 7), (1, 0, 7)],
        Some(AreaError::Outside { column: 1 }),
    ),
    (
        &[(0, 5, 4), (2, 0, 1)],
        Some(AreaError::Outside { column: 0 }),
    ),
    (&[(2, 0, 1)], Some(AreaError::Outside { column: 2 })),
    (
        &[(0, 1, 7), (1, 1, 8)],
        Some(AreaError::Outside { column: 1 }),
    ),
    (&[(0, -1, 7)], Some(AreaError::Outside { column: 0 })),
    (&[(0, 1, 7), (1, 7, 7)], None),
];

#[test]
fn names_the_first_change_that_is_none(rt: HostRuntime) {
    for (told, error) in FIRST_BAD {
        same(&rt, &refused(&rt, rt.alloc(), told), error);
    }
}
