ghost use Rattle.ug_main.specs.Paths.{ArePathsOf};

use ug_cli::Plan;

/// What a folder of checkpoints is for.
#[derive(Clone, Copy, PartialEq, Eq)]
pub enum Purpose {
    /// A run begins in it.
    Begin,
    /// A run resumes from it.
    GoOn,
    /// It is only shown, or there is none.
    Show,
}

/// The file, the folder and the socket that a plan names, and what the folder is for.
#[derive(Clone, Copy)]
pub struct Paths<'a> {
    pub file: &'a str,
    pub folder: &'a str,
    pub socket: &'a str,
    pub purpose: Purpose,
}

/// The paths of a plan. What it does not name is empty.
pub fn paths_of<'a>(plan: Option<Plan<'a>>) -> Paths<'a>
    ensures { ArePathsOf plan.entry result }
{
    let (file, folder, socket, purpose) = match plan {
        Some(Plan::Solve(solve)) => (
            solve.file,
            solve.checkpoint.unwrap_or(""),
            "",
            Purpose::Begin,
        ),
        Some(Plan::Restart(restart)) => (restart.file, restart.checkpoint, "", Purpose::GoOn),
        Some(Plan::Worker(worker)) => ("", "", worker.socket, Purpose::Show),
        Some(Plan::Show(show)) => ("", show.checkpoint, "", Purpose::Show),
        Some(Plan::Gen(_)) | None => ("", "", "", Purpose::Show),
    };
    Paths {
        file,
        folder,
        socket,
        purpose,
    }
}
