//! Crews of children that do not as they should, and of none.

ghost use Rattle.std.specs.Prelude.{◌<◌, length};

use crate::children::child::make_child;
use crate::children::listening::{hears, is_clean, start, start_three, tell};
use crate::children::notes::{Notes, are_lines};
use crate::expect::holds;
use std::alloc::AllocGlobal;
use std::fs;
use std::fs::{DirBuilder, File, Files, Permissions};
use std::net::Net;
use std::os::unix::fs::{DirBuilderExt, PermissionsExt};
use std::os::unix::net::UnixListener;
use std::process::{Processes, SystemProcess};
use std::time::Clock;
use ug_io::Crew;
use ug_real::{ChildCommand, ProcessCrew, SocketFolder};

// Leaves an old socket where the first rank's is to be. Another test may have left the folder.
fn leave_socket<R: Files + Net>(rt: &R) -> bool {
    let folder = "sockets/ug-sockets";
    drop(
        DirBuilder::new()
            .recursive(true)
            .mode(0o700)
            .create(rt, folder),
    );
    let listener = UnixListener::bind(rt, "sockets/ug-sockets/ug-0.sock");
    let so = listener.is_ok();
    drop(listener);
    so
}

// Whether of four ranks just the first and the last live.
fn outer_two_live<C: Crew>(crew: &C) -> bool {
    crew.is_alive(0) && !crew.is_alive(1) && !crew.is_alive(2) && crew.is_alive(3)
}

// Whether of four ranks two end, one says back what it receives, and one never comes.
fn loses_two<C: Crew>(crew: &mut C) -> bool
    requires { 3 < length (C.seen crew.old).lives }
{
    let so = start(crew, 3)
        && start_three(crew)
        && tell(crew, 0, b"abc")
        && hears(crew, [3, 0, 0], 2)
        && outer_two_live(crew)
        && tell(crew, 0, b"q");
    crew.finish();
    so
}

// Whether a crew of four ranks loses two, and nothing is left by then. The lines have why.
fn loses_two_of_four(rt: &HostRuntime, lines: &mut Vec<String>) -> bool {
    let alloc = rt.alloc();
    let children = ChildCommand {
        program: "./child",
        sockets: SocketFolder::Given("sockets"),
    };
    match ProcessCrew::new(rt, alloc, 4, children, Notes { alloc, lines }) {
        Ok(mut crew) => {
            let so = loses_two(&mut crew) && is_clean(rt, "sockets");
            drop(crew);
            so
        }
        Err(_) => false,
    }
}

#[test]
fn of_children_that_end_by_a_signal_or_before_they_come_each_is_gone_once(rt: HostRuntime) {
    let mut lines = Vec::new(rt.alloc());
    holds(&rt, make_child(&rt) && leave_socket(&rt));
    holds(&rt, loses_two_of_four(&rt, &mut lines));
    let wanted = ["1 killed by signal 9", "2 ended with status 3"];
    holds(&rt, are_lines(lines, &wanted));
}

// A program, and a folder for its socket, with which no child can be started, and why.
const CASES: &[(&str, &str, &str)] = &[
    (
        "./child",
        "others",
        "0 could not be started: others may write in the folder of sockets",
    ),
    (
        "./child",
        "file",
        "0 could not be started: File exists (os error 17)",
    ),
    (
        "./child",
        "file/below",
        "0 could not be started: Not a directory (os error 20)",
    ),
    (
        "./none",
        "sockets",
        "0 could not be started: No such file or directory (os error 2)",
    ),
    (
        "./child",
        "a_folder_with_a_name/so_long_that_with_it_the_path_to_a_socket/has_108_bytes_as_many_as_are_too_ma",
        "0 could not be started: the path to its socket has more than 107 bytes",
    ),
];

// Makes a folder that others may write, and a file that is no folder.
fn make_bad_folders<R: Files>(rt: &R) -> bool {
    fs::create_dir(rt, "others").is_ok()
        && fs::set_permissions(rt, "others", Permissions::from_mode(0o733)).is_ok()
        && fs::write(rt, "file", b"no folder").is_ok()
}

// Whether the one rank is not started, and nothing comes.
fn is_not_started<C: Crew>(crew: &mut C) -> bool
    requires { 0 < length (C.seen crew.old).lives }
{
    let so = !start(crew, 0) && !crew.is_alive(0) && crew.turn(&mut [0]).is_err();
    crew.finish();
    so
}

// Whether no child is started with these, and the lines have why.
fn starts_none<R>(rt: &R, children: ChildCommand<'_>, lines: &mut Vec<String>) -> bool
where
    R: Files<File = File> + Net + Processes<Started = SystemProcess> + Clock + AllocGlobal,
{
    let alloc = rt.alloc();
    match ProcessCrew::new(rt, alloc, 1, children, Notes { alloc, lines }) {
        Ok(mut crew) => {
            let so = is_not_started(&mut crew);
            drop(crew);
            so
        }
        Err(_) => false,
    }
}

// Whether no child is started with this program and folder, for this reason, and nothing is left.
fn leaves_nothing<R>(rt: &R, program: &str, sockets: &str, why: &str) -> bool
where
    R: Files<File = File> + Net + Processes<Started = SystemProcess> + Clock + AllocGlobal,
{
    let children = ChildCommand {
        program,
        sockets: SocketFolder::Given(sockets),
    };
    let mut lines = Vec::new(rt.alloc());
    let so = starts_none(rt, children, &mut lines);
    are_lines(lines, &[why]) && so && is_clean(rt, sockets)
}

#[test]
fn a_child_that_cannot_be_started_leaves_nothing(rt: HostRuntime) {
    holds(&rt, make_child(&rt) && make_bad_folders(&rt));
    for &(program, sockets, why) in CASES {
        holds(&rt, leaves_nothing(&rt, program, sockets, why));
    }
}
