ghost use Rattle.std.specs.Prelude.{◌≡◌, OnOk};
ghost use Rattle.ug_drafts.specs.Kept.{with_factor, with_part, has_part};

use crate::role::Role;
use std::alloc::AllocError;
use ug_lists::Items;
use ug_problem::Decimal;

/// A column's place, and the number with which a row has it.
#[derive(Clone, Copy)]
pub struct Factor {
    pub column: u32,
    pub number: Decimal,
}

/// What a row has so far.
#[derive(Drop)]
pub struct RowDraft {
    /// The line that names it.
    pub line: u64,
    pub role: Role,
    /// The coefficients that are not 0.
    pub terms: Items<Factor>,
    /// The right-hand side, if it was given.
    pub side: Option<Decimal>,
    /// The range, if it was given.
    pub range: Option<Decimal>,
    /// The place of the last column that has a coefficient of the row, 0 or not.
    pub last: Option<u32>,
}

/// What pairs give their rows.
#[derive(Clone, Copy)]
pub enum RowPart {
    /// A coefficient of the column at a place.
    Coefficient(u32),
    /// A right-hand side.
    Side,
    /// A range.
    Range,
}

impl RowDraft {
    /// Whether the row has the part; of the columns none comes behind the one asked for.
    pub fn has(&self, part: RowPart) -> bool
        ensures { result ≡ has_part part self.now }
    {
        match part {
            RowPart::Coefficient(column) => match self.last {
                Some(last) => last == column,
                None => false,
            },
            RowPart::Side => self.side.is_some(),
            RowPart::Range => self.range.is_some(),
        }
    }

    // Adds a coefficient, if it is not 0.
    fn add_factor(&mut self, column: u32, number: Decimal) -> Result<(), AllocError>
        ensures { OnOk result (self.new
            ≡ record self.old { terms = with_factor column number self.old.terms }) }
    {
        if number.digits != 0 {
            self.terms.push(Factor { column, number })?;
        }
        Ok(())
    }

    /// Gives the row the part.
    pub fn put(&mut self, part: RowPart, number: Decimal) -> Result<(), AllocError>
        ensures { OnOk result (self.new ≡ with_part part number self.old) }
    {
        match part {
            RowPart::Coefficient(column) => {
                self.add_factor(column, number)?;
                self.last = Some(column);
            }
            RowPart::Side => self.side = Some(number),
            RowPart::Range => self.range = Some(number),
        }
        Ok(())
    }
}
