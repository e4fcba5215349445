ghost use Rattle.std.specs.Prelude.{◌≡◌, IfOk};
ghost use Rattle.ug_print.specs.Refusals.{refused_line, kind_name};

use crate::words::{push_number, push_word};
use std::alloc::{AllocError, Global};
use ug_drafts::{Kind, MpsFault};

/// The line of a refusal: the line of the fault, its kind and its word.
pub fn refusal(alloc: Global, fault: &MpsFault) -> Result<Vec<u8>, AllocError>
    ensures { IfOk result (λ text. text.items ≡ refused_line fault.now) }
{
    let mut text = Vec::from_slice(alloc, b"refused")?;
    push_number(&mut text, alloc, fault.line)?;
    push_word(&mut text, name_of(fault.kind))?;
    if let Some(word) = &fault.word {
        push_word(&mut text, word.as_slice())?;
    }
    text.push(b'\n')?;
    Ok(text)
}

// The name of a kind of fault, as it is printed.
fn name_of(kind: Kind) -> &'static [u8]
    ensures { result.now ≡ kind_name kind }
{
    match kind {
        Kind::Byte => b"Byte",
        Kind::Words => b"Words",
        Kind::Section => b"Section",
        Kind::RowKind => b"RowKind",
        Kind::Marker => b"Marker",
        Kind::BoundKind => b"BoundKind",
        Kind::SemiContinuous => b"SemiContinuous",
        Kind::Unknown => b"Unknown",
        Kind::Duplicate => b"Duplicate",
        Kind::Number => b"Number",
        Kind::TooWide => b"TooWide",
        Kind::TooMany => b"TooMany",
        Kind::TooLong => b"TooLong",
        Kind::NoEnd => b"NoEnd",
        Kind::Continuous => b"Continuous",
        Kind::Unbounded => b"Unbounded",
    }
}
