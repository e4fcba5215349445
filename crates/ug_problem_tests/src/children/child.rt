//! Children that do as their ranks say.

use std::alloc::AllocGlobal;
use std::env;
use std::fs::{Files, OpenOptions};
use std::io::Write;
use std::os::unix::fs::OpenOptionsExt;
use std::rt::Env;

// The program of this test.
fn own_program<R: Env + AllocGlobal>(rt: &R) -> Option<String> {
    match env::args(&(rt, rt.alloc())) {
        Ok(mut words) => {
            let own = words.next();
            drop(words);
            own
        }
        Err(error) => {
            drop(error);
            None
        }
    }
}

// Writes these parts, one behind another. Whether it could, as of each call here.
fn write_parts(file: &mut impl Write, parts: &[&str]) -> bool {
    for part in parts {
        if file.write_all(part.as_bytes()).is_err() {
            return false;
        }
    }
    true
}

// Makes a program of these parts.
fn make_program<R: Files>(rt: &R, name: &str, parts: &[&str]) -> bool {
    let mut ways = OpenOptions::new();
    ways.write(true).create(true).truncate(true).mode(0o700);
    match ways.open(rt, name) {
        Ok(mut file) => {
            let so = write_parts(&mut file, parts);
            drop(file);
            so
        }
        Err(error) => {
            drop(error);
            false
        }
    }
}

// Makes a program of a script that has this test's own program between two parts.
fn make_around_own<R: Files + Env + AllocGlobal>(
    rt: &R,
    name: &str,
    before: &str,
    behind: &str,
) -> bool {
    match own_program(rt) {
        Some(own) => {
            let so = make_program(rt, name, &[before, own.as_str(), behind]);
            drop(own);
            so
        }
        None => false,
    }
}

/// Makes a program `echo` in this folder, which says back what it receives.
pub fn make_echo<R: Files + Env + AllocGlobal>(rt: &R) -> bool {
    let before = "#!/bin/sh
exec \"";
    let behind = "\" \"$@\"
";
    make_around_own(rt, "echo", before, behind)
}

/// Makes a program `solver` in this folder, which solves as the coordinator orders.
pub fn make_solver<R: Files + Env + AllocGlobal>(rt: &R) -> bool {
    let before = "#!/bin/sh
exec \"";
    let behind = "\" \"$@\" solve
";
    make_around_own(rt, "solver", before, behind)
}

/// Makes a program `child` in this folder. Rank 0 sends back what it receives, a signal ends rank
/// 1, rank 2 ends with status 3, and any other rank never connects to its socket.
pub fn make_child<R: Files + Env + AllocGlobal>(rt: &R) -> bool {
    let before = "#!/bin/sh
case \"$3\" in
*ug-0.sock) exec \"";
    let behind = "\" \"$@\" ;;
*ug-1.sock) kill -9 $$ ;;
*ug-2.sock) exit 3 ;;
*) exec sleep 1000 ;;
esac
";
    make_around_own(rt, "child", before, behind)
}
