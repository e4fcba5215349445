ghost use Rattle.std.specs.Prelude.{◌≡◌, true, IsErr};

use std::io;
use std::io::ErrorKind;

/// Did the call fail for this cause?
pub fn failed_by<T>(got: &io::Result<T>, cause: ErrorKind) -> bool
    ensures { result ≡ true → IsErr got.now }
{
    match got {
        Ok(_) => false,
        Err(error) => error.kind() == cause,
    }
}
