ghost use Rattle.std.specs.Prelude.{◌≡◌};
ghost use Rattle.ug_base.specs.Tasks.{lesser_of};

/// Returns the smaller of a number, if there is one, and another.
pub fn lesser(before: Option<i128>, given: i128) -> i128
    ensures { result ≡ lesser_of before given }
{
    match before {
        Some(old) if old < given => old,
        _ => given,
    }
}
