use ug_drafts::{Cause, Kind};

const CONTINUOUS: &str =
    "continuous column; only integer columns are supported, those between markers INTORG and INTEND";

const UNBOUNDED: &str = "column with an infinite bound; --box U uses -U and U for infinite bounds";

/// Why a file is refused and, after a `; `, what helps: the words on standard error, which no
/// definition pins.
pub fn reason(cause: Cause) -> &'static str {
    match cause {
        Cause::Plain(kind) => reason_of_kind(kind),
        Cause::NoText =>
            "not a text file; if it is compressed, use zcat FILE | ug solve /dev/stdin",
        Cause::ByteOrderMark =>
            "the file begins with a byte order mark; tail -c +4 FILE prints it without the mark",
        Cause::LpText =>
            "an LP file, not an MPS file; glpsol --lp FILE --check --wfreemps OUT converts it, without sense and constant",
        Cause::SmallLetters => "section names must be in upper case",
        Cause::SecondSection => "this section occurs twice",
        Cause::Unsolved => "models with this section are not supported",
        Cause::SenseAsHeader =>
            "a sense where a section name is expected; put it after OBJSENSE, or on a line of its own that begins with a blank",
        Cause::Sense => "the word of OBJSENSE must be MIN, MINIMIZE, MAX or MAXIMIZE",
        Cause::SecondSense => "the sense occurs twice",
        Cause::NoSection =>
            "a data line before any section that has data lines; the name of a section begins in the first column",
        Cause::LongWord => "a word has more than 255 bytes",
        Cause::WideBound =>
            "a bound of this column is above 10^9 in absolute value; an infinite bound is 10^20 or more",
        Cause::InfiniteBound =>
            "a lower bound of plus infinity, an upper bound of minus infinity, or an infinite FX",
        Cause::WideScale => "a number of this row has more than 60 decimal places",
        Cause::WideFactor =>
            "a coefficient of this row, scaled with the row to an integer, is above 10^24 in absolute value",
        Cause::WideSide =>
            "the right-hand side of this row, scaled with the row to an integer, is above 10^37 in absolute value",
        Cause::WideRange =>
            "the range of this row, scaled with the row to an integer, is above 10^37 in absolute value",
        Cause::WideSum =>
            "the side from the range of this row, scaled with the row to an integer, is above 10^37 in absolute value",
        Cause::Continuous(_) => CONTINUOUS,
        Cause::Unbounded(_) => UNBOUNDED,
    }
}

/// How many columns are refused for the same cause, if it is one of columns.
pub fn columns_refused(cause: Cause) -> Option<u64> {
    match cause {
        Cause::Continuous(count) | Cause::Unbounded(count) => Some(count),
        _ => None,
    }
}

// Why a file is refused for a fault of this kind.
fn reason_of_kind(kind: Kind) -> &'static str {
    match kind {
        Kind::Byte => "a byte that is not part of a word, a blank or a line end",
        Kind::Words =>
            "a wrong number of words for this section; names with blanks are not supported",
        Kind::Section => "unknown section; a data line begins with a blank",
        Kind::RowKind => "the type of a row must be N, L, G or E",
        Kind::Marker => "a marker must be 'INTORG' or 'INTEND'",
        Kind::BoundKind => "unknown type of bound",
        Kind::SemiContinuous => "semi-continuous columns are not supported",
        Kind::Unknown => "a name that no earlier line defines; names with blanks are not supported",
        Kind::Duplicate => "this name occurs here for the second time",
        Kind::Number => "not a number, or one with too many digits",
        Kind::TooWide => "a number, scaled to an integer, is beyond its limit",
        Kind::TooMany => "more than 10000 rows, 10000 columns or 1000000 nonzeros",
        Kind::TooLong => "the file has more than 268435456 bytes",
        Kind::NoEnd => "the file ends without ENDATA; it may be cut off",
        Kind::Continuous => CONTINUOUS,
        Kind::Unbounded => UNBOUNDED,
    }
}
