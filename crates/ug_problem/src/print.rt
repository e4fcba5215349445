ghost use Rattle.std.specs.Prelude.{List, ℕ, ℤ, ◌≡◌, ◌*◌, ◌≤◌, ◌++◌, ◌/◌, ◌%◌, ◌^◌, IfOk, OnOk, unsigned_abs};
ghost use Rattle.std.specs.Fmt.{decimal};
ghost use Rattle.ug_rows.specs.declared.row.Objective.{Objective};
ghost use Rattle.ug_problem.specs.Printed.{AreDigitsOf, IsLowest, IsSpelled, IsPrinted, fraction_of, shown_of, sign_of};

use std::alloc::{AllocError, Global};
use ug_rows::Objective;

// The number `digits` / 10^`places`.
#[derive(Clone, Copy)]
struct Lowest {
    digits: u128,
    places: u8,
}

// What stands before the point, and the digits after it.
#[derive(Drop)]
struct Parts {
    whole: u128,
    fraction: Vec<u8>,
}

// The number `number` / 10^`scale` in lowest terms.
#[tactic(auto, using(crate::proofs::Printing::one_place_less))]
fn in_lowest_terms(number: u128, scale: u8) -> Lowest
    ensures { IsLowest scale number result.digits result.places }
{
    let mut digits = number;
    let mut places = scale;
    while places > 0 && digits % 10 == 0 {
        digits /= 10;
        places -= 1;
    }
    Lowest { digits, places }
}

fn split(alloc: Global, decimal: Lowest) -> Result<Parts, AllocError>
    ensures whole { IfOk result (λ parts. parts.whole ≡ decimal.digits / 10 ^ decimal.places) }
    ensures fraction { IfOk result
        (λ parts. AreDigitsOf decimal.places (decimal.digits % 10 ^ decimal.places)
        parts.fraction.items) }
{
    let mut whole = decimal.digits;
    let mut fraction = Vec::new(alloc);
    for place in 0..decimal.places {
        fraction.push(b'0' + (whole % 10) as u8)?;
        whole /= 10;
    }
    fraction.reverse();
    Ok(Parts { whole, fraction })
}

fn join(alloc: Global, z: i128, parts: &Parts) -> Result<Vec<u8>, AllocError>
    ensures { IfOk result (λ text. text.items ≡ sign_of z ++ decimal parts.now.whole
        ++ fraction_of parts.now.fraction.items) }
{
    let mut text = Vec::new(alloc);
    match push_parts(alloc, &mut text, z, parts) {
        Ok(()) => Ok(text),
        Err(error) => {
            drop(text);
            Err(error)
        }
    }
}

fn push_parts(alloc: Global, text: &mut Vec<u8>, z: i128, parts: &Parts) -> Result<(), AllocError>
    ensures { OnOk result (text.new.items ≡ text.old.items ++ sign_of z ++ decimal parts.now.whole
        ++ fraction_of parts.now.fraction.items) }
{
    if z < 0 {
        text.push(b'-')?;
    }
    push_number(alloc, text, parts.whole)?;
    if !parts.fraction.is_empty() {
        text.push(b'.')?;
        text.extend_from_slice(parts.fraction.as_slice())?;
    }
    Ok(())
}

fn push_number(alloc: Global, text: &mut Vec<u8>, number: u128) -> Result<(), AllocError>
    ensures { OnOk result (text.new.items ≡ text.old.items ++ decimal number) }
{
    let digits = number.to_string(alloc)?;
    let pushed = text.extend_from_slice(digits.as_bytes());
    drop(digits);
    pushed
}

// The value as the user reads it.
pub fn shown(objective: &Objective, value: i128) -> i128
    requires { unsigned_abs value ≤ 10 ^ 38 }
    ensures { result ≡ shown_of objective.now value }
{
    if objective.maximise { -value } else { value }
}

// Returns the spelling of `z` / 10^`scale`.
pub fn spell(alloc: Global, z: i128, scale: u8) -> Result<Vec<u8>, AllocError>
    ensures { IfOk result (λ text. IsSpelled scale z text.items) }
{
    let parts = split(alloc, in_lowest_terms(z.unsigned_abs(), scale))?;
    join(alloc, z, &parts)
}

/// A value is printed in one way: two texts of one value are the same.
pub fn prints_one_text()
    ensures { (objective : Objective) (value : ℤ) (s t : List ℕ) → IsPrinted objective value s
        → IsPrinted objective value t → s ≡ t }
{}
