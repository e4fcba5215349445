//! Crews of children as they should be: reported, received, and seen off.

ghost use Rattle.std.specs.Prelude.{◌≡◌, ◌<◌, length};

use crate::children::child::make_echo;
use crate::children::listening::{
    ReceivedCounts, hears, is_clean, listen, put_over_and_over, start, start_again, start_three,
    tell, tell_three,
};
use crate::children::notes::{Notes, are_lines};
use crate::expect::holds;
use std::alloc::{AllocGlobal, Global};
use std::fs;
use std::fs::{File, Files};
use std::os::unix::fs::MetadataExt;
use ug_io::Crew;
use ug_real::{ChildCommand, ProcessCrew, SocketFolder};

const MANY: usize = 7 * TIMES;

const TIMES: usize = 50_000;

/// What three ranks go through.
#[derive(Clone, Copy)]
enum Scene {
    SaysItBack,
    GoesOnWithout,
    HearsBesideATalker,
}

// Whether this user alone may do something in the folder.
fn is_private<R: Files>(rt: &R, folder: &str) -> bool {
    match fs::metadata(rt, folder) {
        Ok(metadata) => metadata.mode() & 0o777 == 0o700,
        Err(_) => false,
    }
}

// Whether three ranks that are reported much before they come each say all of it back.
fn says_it_back<C: Crew>(alloc: Global, crew: &mut C) -> bool
    requires { 2 < length (C.seen crew.old).lives }
{
    let mut many = Vec::new(alloc);
    let so = put_over_and_over(&mut many, TIMES)
        && start_three(crew)
        && tell_three(crew, &many)
        && hears(crew, [MANY; 3], 0)
        && tell_three(crew, b"q");
    drop(many);
    crew.finish();
    so
}

// Whether one that hangs up is lost, and one that is shut is started again.
fn goes_on_without<C: Crew>(crew: &mut C) -> bool
    requires { 2 < length (C.seen crew.old).lives }
{
    start_three(crew)
        && tell_three(crew, b"abc")
        && hears(crew, [3; 3], 0)
        && tell(crew, 0, b"h")
        && hears(crew, [0; 3], 1)
        && !crew.is_alive(0)
        && start_again(crew, 1)
}

// Whether another is received where one takes nothing of the much that it is reported.
fn is_not_held_up<C: Crew>(alloc: Global, crew: &mut C) -> bool {
    let mut many = Vec::new(alloc);
    let so = put_over_and_over(&mut many, TIMES)
        && tell(crew, 2, b"s")
        && tell(crew, 2, &many)
        && tell(crew, 1, b"ab")
        && hears(crew, [0, 2, 0], 0);
    drop(many);
    so
}

// Whether one talks on.
fn talks_on<C: Crew>(crew: &mut C) -> bool
    requires { 2 < length (C.seen crew.old).lives }
    ensures { length (C.seen crew.new).lives ≡ length (C.seen crew.old).lives }
{
    let wanted = ReceivedCounts {
        bytes: [1, 0, 0],
        gone: 0,
    };
    start(crew, 0) && tell(crew, 0, b"t") && listen(crew, wanted, &mut [0u8; 1000]).gone == 0
}

// Whether two others come, and are received byte by byte, so that the one that talks is always
// ahead.
fn hears_beside_it<C: Crew>(crew: &mut C) -> bool {
    let wanted = ReceivedCounts {
        bytes: [0, 3, 5],
        gone: 0,
    };
    let ReceivedCounts { bytes, gone } = listen(crew, wanted, &mut [0u8]);
    bytes[1] == 3 && bytes[2] == 5 && gone == 0
}

// Whether one that talks on keeps two others neither from coming nor from being received.
fn hears_beside_a_talker<C: Crew>(crew: &mut C) -> bool
    requires { 2 < length (C.seen crew.old).lives }
{
    talks_on(crew)
        && start(crew, 1)
        && start(crew, 2)
        && tell(crew, 1, b"abc")
        && tell(crew, 2, b"abcde")
        && hears_beside_it(crew)
}

// Whether the crew goes through it as it should. If all are seen off, nothing is left by then.
fn goes_through<R, C>(rt: &R, crew: &mut C, scene: Scene, sockets: &str) -> bool
where
    R: Files<File = File> + AllocGlobal,
    C: Crew,
    requires { 2 < length (C.seen crew.old).lives }
{
    match scene {
        Scene::SaysItBack => says_it_back(rt.alloc(), crew) && is_clean(rt, sockets),
        Scene::GoesOnWithout => goes_on_without(crew) && is_not_held_up(rt.alloc(), crew),
        Scene::HearsBesideATalker => hears_beside_a_talker(crew),
    }
}

// Whether a crew whose sockets are in this folder goes through it as it should, and nothing is left
// of it. The lines have why its ranks are lost.
fn goes_well(rt: &HostRuntime, lines: &mut Vec<String>, scene: Scene, sockets: &str) -> bool {
    let alloc = rt.alloc();
    let children = ChildCommand {
        program: "./echo",
        sockets: SocketFolder::Given(sockets),
    };
    match ProcessCrew::new(rt, alloc, 3, children, Notes { alloc, lines }) {
        Ok(mut crew) => {
            let so = goes_through(rt, &mut crew, scene, sockets);
            drop(crew);
            so && is_clean(rt, sockets)
        }
        Err(_) => false,
    }
}

#[test]
fn three_children_are_told_before_they_come_and_say_all_of_it_back(rt: HostRuntime) {
    let mut lines = Vec::new(rt.alloc());
    holds(&rt, make_echo(&rt));
    holds(
        &rt,
        goes_well(&rt, &mut lines, Scene::SaysItBack, "new/sockets"),
    );
    holds(&rt, are_lines(lines, &[]));
    holds(&rt, is_private(&rt, "new/sockets"));
}

#[test]
fn a_child_that_hangs_up_or_is_shut_or_takes_nothing_is_ended_and_holds_up_nobody(rt: HostRuntime) {
    let mut lines = Vec::new(rt.alloc());
    holds(&rt, make_echo(&rt));
    holds(
        &rt,
        goes_well(&rt, &mut lines, Scene::GoesOnWithout, "sockets"),
    );
    let wanted = ["0 closed its connection and did not end"];
    holds(&rt, are_lines(lines, &wanted));
}

#[test]
fn a_child_that_talks_on_keeps_no_other_from_coming_and_being_heard(rt: HostRuntime) {
    let mut lines = Vec::new(rt.alloc());
    holds(&rt, make_echo(&rt));
    holds(
        &rt,
        goes_well(&rt, &mut lines, Scene::HearsBesideATalker, "sockets"),
    );
    drop(lines);
}
