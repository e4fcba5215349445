ghost use Rattle.std.specs.Prelude.{◌≡◌, ◌<◌, ◌≤◌};
ghost use Rattle.ug_rules.specs.Books.{AreSettings};
ghost use Rattle.ug_top.specs.Plans.{IsPlanned, settings_for, settings_made};

use crate::scaled::scaled;
use ug_branch::Base;
use ug_cli::Asked;
use ug_problem::Problem;
use ug_rules::Settings;

/// How many open nodes a racer needs to win.
const ENOUGH_TO_WIN: u64 = 20;

/// The settings of a run of the problem.
pub fn settings_for(asked: &Asked<'_>, problem: &Problem) -> Settings
    requires { IsPlanned asked.now }
    ensures value { result ≡ settings_for asked.now problem.now }
    ensures settings { AreSettings result }
{
    Settings {
        solvers: asked.ranks.solvers,
        racing: asked.ranks.racing,
        base: asked.ranks.base,
        low: asked.ranks.low,
        high: asked.ranks.high,
        every: u64::from(asked.bounds.every),
        limit: asked.bounds.limit,
        winner: ENOUGH_TO_WIN,
        gap: scaled(asked.bounds.gap, problem.objective().scale),
    }
}

/// The settings of a run of a made instance.
pub fn settings_made(solvers: u32) -> Settings
    requires some { 0 < solvers }
    requires few { solvers ≤ 256 }
    ensures value { result ≡ settings_made solvers }
    ensures settings { AreSettings result }
{
    Settings {
        solvers,
        racing: false,
        base: Base::Bound,
        low: solvers,
        high: (3 * solvers).div_ceil(2),
        every: 100,
        limit: 1 << 40,
        winner: ENOUGH_TO_WIN,
        gap: scaled(0, 0),
    }
}
