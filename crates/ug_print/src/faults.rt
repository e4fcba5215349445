ghost use Rattle.std.specs.Prelude.{◌≡◌, ◌++◌, IfOk, OnOk};
ghost use Rattle.ug_restart.specs.declared.fault.StartFault.TheVariants.{BadImage, OtherProblem, SmallerGap};
ghost use Rattle.ug_print.specs.Lines.{further};
ghost use Rattle.ug_print.specs.Faults.{slot_name, byte_name, fault_words, fault_line};

use crate::words::{push_number, push_signed, push_word};
use std::alloc::{AllocError, Global};
use ug_disk::Slot;
use ug_restart::StartFault;

/// The line of why no run begins.
pub fn fault_line(alloc: Global, fault: &StartFault) -> Result<Vec<u8>, AllocError>
    ensures { IfOk result (λ text. text.items ≡ fault_line fault.now) }
{
    let mut text = fault_words(alloc, *fault)?;
    text.push(b'\n')?;
    Ok(text)
}

fn fault_words(alloc: Global, fault: StartFault) -> Result<Vec<u8>, AllocError>
    ensures { IfOk result (λ text. text.items ≡ fault_words fault) }
{
    match fault {
        StartFault::Memory => Vec::from_slice(alloc, b"memory"),
        StartFault::DiskFault => Vec::from_slice(alloc, b"disk fault"),
        StartFault::BadImage { slot, at } => bad_image(alloc, slot, at),
        StartFault::NoCheckpoint => Vec::from_slice(alloc, b"no checkpoint"),
        StartFault::OtherProblem { at, kept, read } => other_problem(alloc, at, kept, read),
        StartFault::SmallerGap { kept, asked } => smaller_gap(alloc, kept, asked),
        StartFault::Spent => Vec::from_slice(alloc, b"spent"),
    }
}

fn bad_image(alloc: Global, slot: Slot, at: usize) -> Result<Vec<u8>, AllocError>
    ensures { IfOk result (λ text. text.items ≡ fault_words (BadImage slot at)) }
{
    let mut text = Vec::from_slice(alloc, b"bad image")?;
    push_word(&mut text, slot_name(slot))?;
    push_number(&mut text, alloc, at as u64)?;
    Ok(text)
}

// The number of a slot.
fn slot_name(slot: Slot) -> &'static [u8]
    ensures { result.now ≡ slot_name slot }
{
    match slot {
        Slot::Zero => b"0",
        Slot::One => b"1",
    }
}

fn other_problem(
    alloc: Global,
    at: usize,
    kept: Option<u8>,
    read: Option<u8>,
) -> Result<Vec<u8>, AllocError>
    ensures { IfOk result (λ text. text.items ≡ fault_words (OtherProblem at kept read)) }
{
    let mut text = Vec::from_slice(alloc, b"other problem")?;
    push_number(&mut text, alloc, at as u64)?;
    push_byte(&mut text, alloc, kept)?;
    push_byte(&mut text, alloc, read)?;
    Ok(text)
}

// Adds a blank and a byte in decimal, or `none`.
fn push_byte(text: &mut Vec<u8>, alloc: Global, byte: Option<u8>) -> Result<(), AllocError>
    ensures { OnOk result (text.new.items ≡ text.old.items ++ further (byte_name byte)) }
{
    match byte {
        Some(byte) => push_number(text, alloc, byte as u64),
        None => push_word(text, b"none"),
    }
}

fn smaller_gap(alloc: Global, kept: i128, asked: i128) -> Result<Vec<u8>, AllocError>
    ensures { IfOk result (λ text. text.items ≡ fault_words (SmallerGap kept asked)) }
{
    let mut text = Vec::from_slice(alloc, b"smaller gap")?;
    push_signed(&mut text, alloc, kept)?;
    push_signed(&mut text, alloc, asked)?;
    Ok(text)
}
