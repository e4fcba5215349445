ghost use Rattle.std.specs.Prelude.{◌≡◌, false, IfOk};
ghost use Rattle.clap.specs.Words.{App, app_of, rule_of, with_rule, with_subcommand};
ghost use Rattle.clap.specs.declared.builder.command.Command.TheViews.{out-Command};
ghost use Rattle.ug_cli.specs.Options.{bare as bare_app, bounds_rules, ranks_rules, ug, with_rules};
ghost use Rattle.ug_cli.specs.Options.{defaulted as defaulted_rule, demanded as demanded_rule};
ghost use Rattle.ug_cli.specs.Options.{flag as flag_rule, optional as optional_rule};
ghost use Rattle.ug_cli.specs.Options.{gen as gen_app, restart as restart_app, show as show_app};
ghost use Rattle.ug_cli.specs.Options.{positional as positional_rule, solve as solve_app, worker as worker_app};

use clap::{Arg, ArgAction, Command};
use std::alloc::{AllocError, Global};

// A word that has to be there, in its place.
fn positional<'a>(alloc: Global, name: &'a str) -> Arg<'a>
    ensures rule { rule_of result ≡ positional_rule name.now }
    ensures local { result.global ≡ false }
{
    Arg::new(alloc, name).required(true)
}

// Returns an option without a default.
fn optional<'a>(alloc: Global, name: &'a str) -> Arg<'a>
    ensures rule { rule_of result ≡ optional_rule name.now }
    ensures local { result.global ≡ false }
{
    Arg::new(alloc, name).long(name)
}

// An option that has to be there.
fn demanded<'a>(alloc: Global, name: &'a str) -> Arg<'a>
    ensures rule { rule_of result ≡ demanded_rule name.now }
    ensures local { result.global ≡ false }
{
    Arg::new(alloc, name).long(name).required(true)
}

// Returns an option with this default.
fn defaulted<'a>(alloc: Global, name: &'a str, word: &'a str) -> Arg<'a>
    ensures rule { rule_of result ≡ defaulted_rule name.now word.now }
    ensures local { result.global ≡ false }
{
    Arg::new(alloc, name).long(name).default_value(word)
}

// An option without a word.
fn flag<'a>(alloc: Global, name: &'a str) -> Arg<'a>
    ensures rule { rule_of result ≡ flag_rule name.now }
    ensures local { result.global ≡ false }
{
    Arg::new(alloc, name).long(name).action(ArgAction::SetTrue)
}

// The command with one argument more, if there is memory for it and was for those before.
fn add<'a>(
    command: Result<Command<'a>, AllocError>,
    arg: Arg<'a>,
) -> Result<Command<'a>, AllocError>
    requires command { IfOk command (λ c. (out-Command c).has_globals ≡ false) }
    requires arg { arg.global ≡ false }
    ensures app { (app : App) → IfOk command.entry (λ c. app_of c ≡ app)
        → IfOk result (λ c. app_of c ≡ with_rule app (rule_of arg.entry)) }
    ensures local { IfOk result (λ c. (out-Command c).has_globals ≡ false) }
{
    match command {
        Ok(command) => command.arg(arg),
        Err(error) => {
            drop(arg);
            Err(error)
        }
    }
}

// The command with the numbers of the ranks.
fn with_ranks<'a>(
    alloc: Global,
    command: Result<Command<'a>, AllocError>,
) -> Result<Command<'a>, AllocError>
    requires { IfOk command (λ c. (out-Command c).has_globals ≡ false) }
    ensures app { (app : App) → IfOk command.entry (λ c. app_of c ≡ app)
        → IfOk result (λ c. app_of c ≡ with_rules app ranks_rules) }
    ensures local { IfOk result (λ c. (out-Command c).has_globals ≡ false) }
{
    let command = add(command, defaulted(alloc, "mode", "threads"));
    let command = add(command, defaulted(alloc, "solvers", "1"));
    let command = add(command, flag(alloc, "racing"));
    let command = add(command, defaulted(alloc, "base", "bound"));
    let command = add(command, optional(alloc, "low"));
    add(command, optional(alloc, "high"))
}

// The command with the numbers of the bounds.
fn with_bounds<'a>(
    alloc: Global,
    command: Result<Command<'a>, AllocError>,
) -> Result<Command<'a>, AllocError>
    requires { IfOk command (λ c. (out-Command c).has_globals ≡ false) }
    ensures app { (app : App) → IfOk command.entry (λ c. app_of c ≡ app)
        → IfOk result (λ c. app_of c ≡ with_rules app bounds_rules) }
    ensures local { IfOk result (λ c. (out-Command c).has_globals ≡ false) }
{
    let command = add(command, optional(alloc, "every"));
    let command = add(command, defaulted(alloc, "limit", "1099511627776"));
    let command = add(command, optional(alloc, "box"));
    let command = add(command, defaulted(alloc, "gap", "0"));
    add(command, defaulted(alloc, "sockets", ""))
}

fn solve<'a>(alloc: Global) -> Result<Command<'a>, AllocError>
    ensures app { IfOk result (λ c. app_of c ≡ solve_app) }
    ensures local { IfOk result (λ c. (out-Command c).has_globals ≡ false) }
{
    let command = add(Ok(Command::new(alloc, "solve")), positional(alloc, "file"));
    let command = add(command, optional(alloc, "checkpoint"));
    with_bounds(alloc, with_ranks(alloc, command))
}

fn restart<'a>(alloc: Global) -> Result<Command<'a>, AllocError>
    ensures app { IfOk result (λ c. app_of c ≡ restart_app) }
    ensures local { IfOk result (λ c. (out-Command c).has_globals ≡ false) }
{
    let command = add(
        Ok(Command::new(alloc, "restart")),
        positional(alloc, "file"),
    );
    let command = add(command, demanded(alloc, "checkpoint"));
    with_bounds(alloc, with_ranks(alloc, command))
}

fn worker<'a>(alloc: Global) -> Result<Command<'a>, AllocError>
    ensures app { IfOk result (λ c. app_of c ≡ worker_app) }
    ensures local { IfOk result (λ c. (out-Command c).has_globals ≡ false) }
{
    add(Ok(Command::new(alloc, "worker")), demanded(alloc, "socket"))
}

fn show<'a>(alloc: Global) -> Result<Command<'a>, AllocError>
    ensures app { IfOk result (λ c. app_of c ≡ show_app) }
    ensures local { IfOk result (λ c. (out-Command c).has_globals ≡ false) }
{
    add(
        Ok(Command::new(alloc, "show")),
        demanded(alloc, "checkpoint"),
    )
}

fn generate<'a>(alloc: Global) -> Result<Command<'a>, AllocError>
    ensures app { IfOk result (λ c. app_of c ≡ gen_app) }
    ensures local { IfOk result (λ c. (out-Command c).has_globals ≡ false) }
{
    let command = add(Ok(Command::new(alloc, "gen")), positional(alloc, "seed"));
    let command = add(command, positional(alloc, "size"));
    add(command, defaulted(alloc, "solvers", "1"))
}

// The program before its commands.
fn bare<'a>(alloc: Global) -> Command<'a>
    ensures { app_of result ≡ bare_app }
{
    Command::new(alloc, "ug")
        .no_binary_name(true)
        .disable_help_flag(true)
        .disable_version_flag(true)
        .disable_help_subcommand(true)
        .subcommand_required(true)
}

// The program with one command more, if there is memory for both.
fn with<'a>(
    program: Result<Command<'a>, AllocError>,
    command: Result<Command<'a>, AllocError>,
) -> Result<Command<'a>, AllocError>
    requires { IfOk command (λ c. (out-Command c).has_globals ≡ false) }
    ensures { (app inner : App) → IfOk program.entry (λ c. app_of c ≡ app)
        → IfOk command.entry (λ c. app_of c ≡ inner)
        → IfOk result (λ c. app_of c ≡ with_subcommand app inner.top) }
{
    match (program, command) {
        (Ok(program), Ok(command)) => program.subcommand(command),
        (program, command) => {
            drop(program);
            drop(command);
            Err(AllocError)
        }
    }
}

/// The whole command line.
pub fn command<'a>(alloc: Global) -> Result<Command<'a>, AllocError>
    ensures { IfOk result (λ c. app_of c ≡ ug) }
{
    let program = with(Ok(bare(alloc)), solve(alloc));
    let program = with(program, restart(alloc));
    let program = with(program, worker(alloc));
    let program = with(program, show(alloc));
    with(program, generate(alloc))
}
