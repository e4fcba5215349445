//! What a test expects, as calls: a macro would be proved in each test, with all that it holds.

ghost use Rattle.std.specs.Prelude.{◌≡◌, true};

use std::fmt::Debug;
use std::process::Abort;

/// Expects `found` to equal `wanted`: ends the program with both where it does not.
pub fn same<T: PartialEq + Debug>(rt: &impl Abort, found: &T, wanted: &T)
    ensures { T.eq found.now wanted.now ≡ true }
{
    assert_eq!(rt; *found, *wanted);
}

/// As `same`, and names the case.
pub fn same_at<T: PartialEq + Debug>(rt: &impl Abort, found: &T, wanted: &T, case: &impl Debug)
    ensures { T.eq found.now wanted.now ≡ true }
{
    assert_eq!(rt; *found, *wanted, "{case:?}");
}

/// Expects a condition to be true: ends the program where it is not.
pub fn holds(rt: &impl Abort, condition: bool)
    ensures { condition ≡ true }
{
    assert!(rt; condition);
}

/// As `holds`, and names the case.
pub fn holds_at(rt: &impl Abort, condition: bool, case: &impl Debug)
    ensures { condition ≡ true }
{
    assert!(rt; condition, "{case:?}");
}
