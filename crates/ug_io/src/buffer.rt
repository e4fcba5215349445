ghost use Rattle.std.specs.Prelude.{◌≡◌, length, IfOk};

use std::alloc::{AllocError, Global};

/// Returns a buffer of `n` zeros to read into or write over. The contract states its length only: a
/// proof that also knows the contents counts the bytes one by one.
pub fn zeros(alloc: Global, n: usize) -> Result<Vec<u8>, AllocError>
    ensures { IfOk result (λ v. length v.items ≡ n) }
{
    vec![in alloc; 0u8; n]
}
