ghost use Rattle.std.specs.Prelude.{◌≡◌, ℕ, ◌<◌, ◌/◌, ◌%◌};
ghost use Rattle.ug_branch.specs.Numbers.{number_of, pick_bit, end_bit, half_bit, base_bit, first_params};

/// Which measure picks the column.
#[derive(Clone, Copy, PartialEq, Eq)]
pub enum Pick {
    /// Its place alone.
    Place,
    /// Its width, and its place among those as wide.
    Width,
}

/// Which end of the columns wins.
#[derive(Clone, Copy, PartialEq, Eq)]
pub enum End {
    Lowest,
    Highest,
}

/// Which half is examined first.
#[derive(Clone, Copy, PartialEq, Eq)]
pub enum Half {
    Lower,
    Upper,
}

/// What a search leaves out: boxes that bound propagation empties, or also those that a weighted
/// sum of rows bounds.
#[derive(Clone, Copy, PartialEq, Eq)]
pub enum Base {
    /// Bound propagation over the problem's rows.
    Bound,
    /// Rows that follow from the problem's and the cutoff, beside them.
    Surrogate,
}

/// How a box is searched: how it is branched on, and what is omitted.
#[derive(Clone, Copy, PartialEq, Eq)]
pub struct Params {
    pub pick: Pick,
    pub end: End,
    pub half: Half,
    pub base: Base,
}

impl Params {
    /// The params with this number.
    #[tactic(auto, using(crate::proofs::NumberLemmas::only_one))]
    pub fn new(number: u8) -> Params
        requires { number < 16 }
        ensures spelled { number_of result ≡ number }
        ensures only { (other : Params) → number_of other ≡ number → other ≡ result }
    {
        Params {
            pick: pick_of(number),
            end: end_of(number),
            half: half_of(number),
            base: base_of(number),
        }
    }

    /// The first params of a base.
    pub fn first(base: Base) -> Params
        ensures { result ≡ first_params base }
    {
        Params {
            pick: Pick::Place,
            end: End::Lowest,
            half: Half::Lower,
            base,
        }
    }

    /// The number of the params.
    pub fn number(self) -> u8
        ensures value { result ≡ number_of self }
        ensures small { result < 16 }
    {
        let pick = match self.pick {
            Pick::Place => 0,
            Pick::Width => 1,
        };
        let end = match self.end {
            End::Lowest => 0,
            End::Highest => 2,
        };
        let half = match self.half {
            Half::Lower => 0,
            Half::Upper => 4,
        };
        let base = match self.base {
            Base::Bound => 0,
            Base::Surrogate => 8,
        };
        pick + end + half + base
    }

    pub fn pick(self) -> Pick
        ensures { result ≡ self.pick }
    {
        self.pick
    }

    pub fn end(self) -> End
        ensures { result ≡ self.end }
    {
        self.end
    }

    pub fn half(self) -> Half
        ensures { result ≡ self.half }
    {
        self.half
    }

    pub fn base(self) -> Base
        ensures { result ≡ self.base }
    {
        self.base
    }
}

// The measure that bit 0 names.
fn pick_of(number: u8) -> Pick
    ensures { pick_bit result ≡ number % 2 }
{
    if number % 2 == 0 {
        Pick::Place
    } else {
        Pick::Width
    }
}

// The end that bit 1 names.
fn end_of(number: u8) -> End
    ensures { end_bit result ≡ number / 2 % 2 }
{
    if number / 2 % 2 == 0 {
        End::Lowest
    } else {
        End::Highest
    }
}

// The half that bit 2 names.
fn half_of(number: u8) -> Half
    ensures { half_bit result ≡ number / 4 % 2 }
{
    if number / 4 % 2 == 0 {
        Half::Lower
    } else {
        Half::Upper
    }
}

// The base that bit 3 names.
fn base_of(number: u8) -> Base
    ensures { base_bit result ≡ number / 8 % 2 }
{
    if number / 8 % 2 == 0 {
        Base::Bound
    } else {
        Base::Surrogate
    }
}
