//! Words and lines that are added to the output. After an error the output may have a part of them.

ghost use Rattle.std.specs.Prelude.{◌≡◌, ◌++◌, OnOk};
ghost use Rattle.std.specs.Fmt.{decimal, signed_decimal};
ghost use Rattle.ug_print.specs.Lines.{further, named_line};

use std::alloc::{AllocError, Global};

/// Adds a blank and a word.
pub fn push_word(text: &mut Vec<u8>, word: &[u8]) -> Result<(), AllocError>
    ensures { OnOk result (text.new.items ≡ text.old.items ++ further word.now) }
{
    text.push(b' ')?;
    text.extend_from_slice(word)?;
    Ok(())
}

/// Adds a blank and a number.
pub fn push_number(text: &mut Vec<u8>, alloc: Global, number: u64) -> Result<(), AllocError>
    ensures { OnOk result (text.new.items ≡ text.old.items ++ further (decimal number)) }
{
    let digits = number.to_string(alloc)?;
    push_word(text, digits.as_bytes())
}

/// Adds a blank and a number, with a minus sign where it is below 0.
pub fn push_signed(text: &mut Vec<u8>, alloc: Global, number: i128) -> Result<(), AllocError>
    ensures { OnOk result (text.new.items ≡ text.old.items ++ further (signed_decimal number)) }
{
    let digits = number.to_string(alloc)?;
    push_word(text, digits.as_bytes())
}

/// Adds the line of a name and a word.
pub fn push_named(text: &mut Vec<u8>, name: &[u8], word: &[u8]) -> Result<(), AllocError>
    ensures { OnOk result (text.new.items ≡ text.old.items ++ named_line name.now word.now) }
{
    text.extend_from_slice(name)?;
    push_word(text, word)?;
    text.push(b'\n')?;
    Ok(())
}

/// Adds the line of a name and a number.
pub fn push_named_number(
    text: &mut Vec<u8>,
    alloc: Global,
    name: &[u8],
    number: u64,
) -> Result<(), AllocError>
    ensures { OnOk result (text.new.items
        ≡ text.old.items ++ named_line name.now (decimal number)) }
{
    let digits = number.to_string(alloc)?;
    push_named(text, name, digits.as_bytes())
}

/// Adds the line of a name and a number, with a minus sign where it is below 0.
pub fn push_named_signed(
    text: &mut Vec<u8>,
    alloc: Global,
    name: &[u8],
    number: i128,
) -> Result<(), AllocError>
    ensures { OnOk result (text.new.items
        ≡ text.old.items ++ named_line name.now (signed_decimal number)) }
{
    let digits = number.to_string(alloc)?;
    push_named(text, name, digits.as_bytes())
}
