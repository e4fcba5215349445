ghost use Rattle.std.specs.Prelude.{◌≡◌, ◌≤◌, ◌∷◌, [], All, find, is_none, length, Some, None, IfSome, MatchResult};
ghost use Rattle.std.specs.Option.{option_map};
ghost use Rattle.ug_lines.specs.Shaped.{pair_shaped, pairs_shaped};
ghost use Rattle.ug_problem.specs.Decimals.{decimal_of};
ghost use Rattle.ug_mps.specs.Faults.{numbers_in};
ghost use Rattle.ug_mps.specs.Good.{IsNumbered};
ghost use Rattle.ug_mps.specs.Numbered.{pair_said, pairs_said, AreShortNumbers};
ghost use Rattle.ug_mps.specs.Says.{pair_read, pairs_read};

use ug_lines::{NamedWord, NamedWords};
use ug_problem::Decimal;

/// A row's name and a number.
#[derive(Clone, Copy)]
pub struct NamedNumber<'a> {
    pub row: &'a [u8],
    pub number: Decimal,
}

/// One or two pairs of a row's name and a number.
#[derive(Clone, Copy)]
pub struct NamedNumbers<'a> {
    pub first: NamedNumber<'a>,
    pub second: Option<NamedNumber<'a>>,
}

impl NamedNumbers<'_> {
    /// How many pairs there are.
    pub fn count(&self) -> u32
        ensures value { result ≡ length (pairs_said self.now) }
        ensures few { result ≤ 2 }
    {
        match self.second {
            Some(_) => 2,
            None => 1,
        }
    }
}

// A pair with its number.
fn numbered<'a>(pair: &NamedWord<'a>) -> Option<NamedNumber<'a>>
    requires { length pair.now.number.now ≤ 255 }
    ensures value { option_map pair_said result ≡ pair_read (pair_shaped pair.now) }
    ensures number { IfSome result (λ p. IsNumbered (pair_said p)) }
{
    match Decimal::from_word(pair.number) {
        Some(number) => Some(NamedNumber {
            row: pair.row,
            number,
        }),
        None => None,
    }
}

/// The pairs with their numbers, or the first word that is no number.
pub fn numbers_of<'a>(pairs: &NamedWords<'a>) -> Result<NamedNumbers<'a>, &'a [u8]>
    requires { AreShortNumbers (pairs_shaped pairs.now) }
    ensures value { MatchResult result
        (λ read.
        (find (λ word. is_none (decimal_of word)) (numbers_in (pairs_shaped pairs.now)) ≡ None)
        × ((pairs_read (pairs_shaped pairs.now) ≡ Some (pairs_said read))
        × All IsNumbered (pairs_said read)))
        (λ word. find (λ word. is_none (decimal_of word)) (numbers_in (pairs_shaped pairs.now))
        ≡ Some word.now) }
{
    let Some(first) = numbered(&pairs.first) else {
        return Err(pairs.first.number);
    };
    let Some(pair) = &pairs.second else {
        return Ok(NamedNumbers {
            first,
            second: None,
        });
    };
    match numbered(pair) {
        Some(second) => Ok(NamedNumbers {
            first,
            second: Some(second),
        }),
        None => Err(pair.number),
    }
}
