ghost use Rattle.std.specs.Prelude.{◌≡◌, ◌≤◌, ℕ, Option, IfSome, IfNone, codes};
ghost use Rattle.clap.specs.Words.{found_of, rows_of};
ghost use Rattle.ug_cli.specs.Numbers.{IsGivenIf};
ghost use Rattle.ug_cli.specs.Taken.{AreBounds, AreRanks, AreSettings, IsBase, IsMode, usual_every};
ghost use Rattle.ug_cli.specs.Taken.{word_of};

use crate::given::{given, given_if, given_or, has_word, text_of};
use crate::plan::{Asked, Limits, Mode, Solvers};
use clap::ArgMatches;
use ug_branch::Base;

// What the solvers leave out.
fn base_of(matches: &ArgMatches<'_>) -> Option<Base>
    ensures found { IfSome result
        (IsBase (word_of (codes "base") (rows_of (found_of matches.now)))) }
    ensures none { IfNone result ((base : Base)
        → IsBase (word_of (codes "base") (rows_of (found_of matches.now))) base → ⊥) }
{
    if has_word(matches, "base", "bound") {
        return Some(Base::Bound);
    }
    if has_word(matches, "base", "surrogate") {
        return Some(Base::Surrogate);
    }
    None
}

fn ranks_of(matches: &ArgMatches<'_>) -> Option<Solvers>
    ensures found { IfSome result (AreRanks (rows_of (found_of matches.now))) }
    ensures none { IfNone result ((ranks : Solvers)
        → AreRanks (rows_of (found_of matches.now)) ranks → ⊥) }
{
    let base = base_of(matches)?;
    let solvers = given(matches, "solvers", 1, 256)?;
    let low = given_or(matches, "low", 1, 65_536, solvers)?;
    let high = given_or(matches, "high", 1, 131_072, (3 * low).div_ceil(2))?;
    Some(Solvers {
        solvers: solvers as u32,
        racing: has_word(matches, "racing", "true"),
        base,
        low: low as u32,
        high: high as u32,
    })
}

// The bound of the columns that have none.
fn box_of(matches: &ArgMatches<'_>) -> Option<Option<u32>>
    ensures found { IfSome result
        (IsGivenIf 0 1000000000 (word_of (codes "box") (rows_of (found_of matches.now)))) }
    ensures none { IfNone result ((number : Option ℕ)
        → IsGivenIf 0 1000000000 (word_of (codes "box") (rows_of (found_of matches.now))) number
        → ⊥) }
{
    match given_if(matches, "box", 0, 1_000_000_000) {
        Some(Some(number)) => Some(Some(number as u32)),
        Some(None) => Some(None),
        None => None,
    }
}

// Returns the default of `--every`. A coordinator of processes receives nothing while it saves, so
// its saves are rare.
fn usual_every(mode: Mode) -> u64
    ensures value { result ≡ usual_every mode }
    ensures most { result ≤ 4294967295 }
{
    match mode {
        Mode::Threads => 100,
        Mode::Processes => 10_000,
    }
}

fn bounds_of(matches: &ArgMatches<'_>, mode: Mode) -> Option<Limits>
    ensures found { IfSome result (AreBounds (rows_of (found_of matches.now)) mode) }
    ensures none { IfNone result ((any : Mode) (bounds : Limits)
        → AreBounds (rows_of (found_of matches.now)) any bounds → ⊥) }
{
    let every = given_or(matches, "every", 1, 4_294_967_295, usual_every(mode));
    let limit = given(matches, "limit", 0, 1_099_511_627_776);
    let boxed = box_of(matches);
    let gap = given(matches, "gap", 0, 1_000_000_000_000_000_000);
    match (every, limit, boxed, gap) {
        (Some(every), Some(limit), Some(boxed), Some(gap)) => Some(Limits {
            every: every as u32,
            limit,
            boxed,
            gap,
        }),
        _ => None,
    }
}

// Returns how the solvers run.
fn mode_of(matches: &ArgMatches<'_>) -> Option<Mode>
    ensures found { IfSome result
        (IsMode (word_of (codes "mode") (rows_of (found_of matches.now)))) }
    ensures none { IfNone result ((mode : Mode)
        → IsMode (word_of (codes "mode") (rows_of (found_of matches.now))) mode → ⊥) }
{
    if has_word(matches, "mode", "threads") {
        return Some(Mode::Threads);
    }
    if has_word(matches, "mode", "processes") {
        return Some(Mode::Processes);
    }
    None
}

/// The settings of a solve.
pub fn settings_of<'a>(matches: &ArgMatches<'a>) -> Option<Asked<'a>>
    ensures found { IfSome result (AreSettings (rows_of (found_of matches.now))) }
    ensures none { IfNone result ((settings : Asked)
        → AreSettings (rows_of (found_of matches.now)) settings → ⊥) }
{
    let mode = mode_of(matches)?;
    match (
        ranks_of(matches),
        bounds_of(matches, mode),
        text_of(matches, "sockets"),
    ) {
        (Some(ranks), Some(bounds), Some(sockets)) => Some(Asked {
            mode,
            ranks,
            bounds,
            sockets,
        }),
        _ => None,
    }
}
