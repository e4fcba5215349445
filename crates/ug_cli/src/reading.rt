ghost use Rattle.std.specs.Prelude.{◌≡◌, List, [], Option, IfSome, IfNone, IfOk, MatchResult, codes};
ghost use Rattle.clap.specs.Words.{found_of, rows_of, subcommand_of, subcommand_rows_of};
ghost use Rattle.clap.specs.Faults.{fault_of};
ghost use Rattle.ug_cli.specs.Options.{ug};
ghost use Rattle.ug_cli.specs.Taken.{AskedIn, Asks, IsRefused, IsUnread, TakenWords};
ghost use Rattle.ug_cli.specs.Taken.{ranks_of as stated_ranks, texts};

use crate::given::{given, text_of};
use crate::options::command;
use crate::plan::{Gen, Plan, Restart, Show, Solve, Solvers, Worker};
use crate::settings::settings_of;
use crate::usage::Usage;
use clap::ArgMatches;
use clap::error::ErrorKind;
use std::alloc::Global;

fn solve_of<'a>(matches: &ArgMatches<'a>) -> Option<Plan<'a>>
    ensures found { IfSome result (Asks (codes "solve") (rows_of (found_of matches.now))) }
    ensures none { IfNone result ((plan : Plan)
        → Asks (codes "solve") (rows_of (found_of matches.now)) plan → ⊥) }
{
    let checkpoint = text_of(matches, "checkpoint");
    match (text_of(matches, "file"), settings_of(matches)) {
        (Some(file), Some(settings)) => Some(Plan::Solve(Solve {
            file,
            checkpoint,
            settings,
        })),
        _ => None,
    }
}

fn restart_of<'a>(matches: &ArgMatches<'a>) -> Option<Plan<'a>>
    ensures found { IfSome result (Asks (codes "restart") (rows_of (found_of matches.now))) }
    ensures none { IfNone result ((plan : Plan)
        → Asks (codes "restart") (rows_of (found_of matches.now)) plan → ⊥) }
{
    let file = text_of(matches, "file");
    let checkpoint = text_of(matches, "checkpoint");
    match (file, checkpoint, settings_of(matches)) {
        (Some(file), Some(checkpoint), Some(settings)) => Some(Plan::Restart(Restart {
            file,
            checkpoint,
            settings,
        })),
        _ => None,
    }
}

fn worker_of<'a>(matches: &ArgMatches<'a>) -> Option<Plan<'a>>
    ensures found { IfSome result (Asks (codes "worker") (rows_of (found_of matches.now))) }
    ensures none { IfNone result ((plan : Plan)
        → Asks (codes "worker") (rows_of (found_of matches.now)) plan → ⊥) }
{
    let socket = text_of(matches, "socket")?;
    Some(Plan::Worker(Worker { socket }))
}

fn show_of<'a>(matches: &ArgMatches<'a>) -> Option<Plan<'a>>
    ensures found { IfSome result (Asks (codes "show") (rows_of (found_of matches.now))) }
    ensures none { IfNone result ((plan : Plan)
        → Asks (codes "show") (rows_of (found_of matches.now)) plan → ⊥) }
{
    let folder = text_of(matches, "checkpoint")?;
    Some(Plan::Show(Show { checkpoint: folder }))
}

fn gen_of<'a>(matches: &ArgMatches<'a>) -> Option<Plan<'a>>
    ensures found { IfSome result (Asks (codes "gen") (rows_of (found_of matches.now))) }
    ensures none { IfNone result ((plan : Plan)
        → Asks (codes "gen") (rows_of (found_of matches.now)) plan → ⊥) }
{
    let seed = given(matches, "seed", 1, 2_147_483_646);
    let size = given(matches, "size", 1, 40);
    let solvers = given(matches, "solvers", 1, 256);
    match (seed, size, solvers) {
        (Some(seed), Some(size), Some(solvers)) => Some(Plan::Gen(Gen {
            seed: seed as u32,
            size: size as u32,
            solvers: solvers as u32,
        })),
        _ => None,
    }
}

// The plan for which the command of this name asks.
fn plan_of<'a>(name: &str, matches: &ArgMatches<'a>) -> Option<Plan<'a>>
    ensures found { IfSome result (Asks name.now (rows_of (found_of matches.now))) }
    ensures none { IfNone result ((plan : Plan)
        → Asks name.now (rows_of (found_of matches.now)) plan → ⊥) }
{
    match name {
        "solve" => solve_of(matches),
        "restart" => restart_of(matches),
        "worker" => worker_of(matches),
        "show" => show_of(matches),
        "gen" => gen_of(matches),
        _ => None,
    }
}

// The plan for which the command asks that was met.
fn asked<'a>(matches: &ArgMatches<'a>) -> Option<Plan<'a>>
    ensures found { IfSome result (AskedIn (subcommand_rows_of matches.now)) }
    ensures none { IfNone result ((plan : Plan)
        → AskedIn (subcommand_rows_of matches.now) plan → ⊥) }
{
    let (name, inner) = matches.subcommand()?;
    plan_of(name, inner)
}

// What clap makes of the words.
fn parsed<'a>(alloc: Global, words: &'a [String]) -> Result<ArgMatches<'a>, Usage>
    ensures { MatchResult result
        (λ m. (fault_of ug (texts words.now) ≡ [])
        × (subcommand_rows_of m ≡ subcommand_of ug (texts words.now)))
        (IsUnread (texts words.now)) }
{
    let command = command(alloc)?;
    match command.try_get_matches_from(words) {
        Ok(matches) => Ok(matches),
        Err(error) => {
            let kind = error.kind();
            drop(error);
            match kind {
                ErrorKind::OutOfMemory => Err(Usage::Memory),
                _ => Err(Usage::Words),
            }
        }
    }
}

// The ranks of a plan that has a low and a high.
fn ranks_in(plan: &Plan<'_>) -> Option<Solvers>
    ensures { result ≡ stated_ranks plan.now }
{
    match plan {
        Plan::Solve(solve) => Some(solve.settings.ranks),
        Plan::Restart(restart) => Some(restart.settings.ranks),
        Plan::Worker(_) => None,
        Plan::Show(_) => None,
        Plan::Gen(_) => None,
    }
}

/// The plan that the words ask for, which are those behind the program's own. `Words` comes
/// exactly where they ask for none; then `HighBelowLow` exactly where the high is below the low.
pub fn read_words<'a>(alloc: Global, words: &'a [String]) -> Result<Plan<'a>, Usage>
    ensures { MatchResult result (TakenWords (texts words.now)) (IsRefused (texts words.now)) }
{
    let matches = parsed(alloc, words)?;
    let plan = asked(&matches);
    drop(matches);
    let Some(plan) = plan else {
        return Err(Usage::Words);
    };
    match ranks_in(&plan) {
        Some(Solvers { low, high, .. }) if high < low => Err(Usage::HighBelowLow { low, high }),
        _ => Ok(plan),
    }
}
