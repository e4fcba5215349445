ghost use Rattle.std.specs.Prelude.{◌≡◌, IfSome};
ghost use Rattle.ug_print.specs.Lines.{memory_line};
ghost use Rattle.ug_cli.specs.declared.plan.Plan.{Plan};
ghost use Rattle.ug_cli.specs.Taken.{TakenWords, texts};
ghost use Rattle.ug_top.specs.Outside.{outside};
ghost use Rattle.ug_top.specs.Ends.{HasNeeds, status_of, text_of};
ghost use Rattle.ug_top.specs.Headline.{HasAnswered};
ghost use Rattle.ug_top.specs.Honesty.{AreChildrenHonest};
ghost use Rattle.ug_top.specs.Left.{IsBestFor, IsFaultFor, best_of, line_of};
ghost use Rattle.ug_top.specs.Ran.{HasRun, HasTold, IsDue, due_status, due_text};

use crate::command::run_plan;
use crate::ended::Ended;
use crate::headline::answers_are_right;
use crate::objects::Objects;
use crate::ran::Ran;
use crate::status::Status;
use crate::write::write_all;
use std::sync::Wait;
use std::thread::Threads;
use ug_cli::{Usage, crossed_is_not_taken, read_words};
use ug_disk::Disk;
use ug_io::{Crew, Failed, Link, Sink, Source};
use ug_mps::one_outcome;
use ug_restart::{Host, Observer};
use ug_serve::services_end_in_one_way;

/// Does all that the program does: reads the words behind the program's name, does what they ask
/// for, and writes the lines of it. `Memory` alone has no cause: it may replace any status but
/// `Usage`, or come before a call outside fails. A crew or a link that the words need is among the
/// objects. The result says how the run ended; a run that answered has printed a right answer,
/// which `answers_are_right` derives. If a file was refused the result says why, also if its line
/// could not be written.
pub fn run<R, S, K, D, O, C, L>(
    host: &Host<'_, R, O>,
    words: &[String],
    objects: &mut Objects<S, D, C, L>,
    out: &mut K,
) -> Ran
where
    R: Threads + Wait + Sync,
    S: Source,
    K: Sink,
    D: Disk,
    O: Observer,
    C: Crew + Drop,
    L: Link + Drop,
    requires { (plan : Plan) → TakenWords (texts words.now) plan
        → HasNeeds plan (outside S.seen D.seen C.seen L.seen objects.old) }
    ensures did { HasRun (texts words.now)
        (outside S.seen D.seen C.seen L.seen objects.old)
        (outside S.seen D.seen C.seen L.seen objects.new)
        (K.seen out.old) (K.seen out.new) result.status }
    ensures right { result.status ≡ Status.Answered → HasAnswered
        (AreChildrenHonest (outside S.seen D.seen C.seen L.seen objects.old)
        (outside S.seen D.seen C.seen L.seen objects.new)) (texts words.now)
        (outside S.seen D.seen C.seen L.seen objects.old) (K.seen out.old) (K.seen out.new) }
    ensures best { IfSome result.best (λ v. IsBestFor (texts words.now)
        (outside S.seen D.seen C.seen L.seen objects.old)
        (outside S.seen D.seen C.seen L.seen objects.new) v.items) }
    ensures fault { IfSome result.refusal (λ r. IsFaultFor (texts words.now)
        (outside S.seen D.seen C.seen L.seen objects.old) r.line) }
{
    answers_are_right();
    let Some(ended) = carry_out(host, words, objects) else {
        return Ran {
            status: Status::Usage,
            refusal: None,
            best: None,
        };
    };
    let status = tell(out, &ended);
    let refusal = ended.refusal();
    let best = ended.into_best();
    Ran {
        status,
        refusal,
        best,
    }
}

/// Reports lack of memory where the words could not be read, so that nothing is read or saved.
pub fn tell_unread<K: Sink>(out: &mut K) -> Status
    ensures { HasTold Status.Memory memory_line (K.seen out.old) (K.seen out.new) result }
{
    let ended = Ended::Memory;
    let status = tell(out, &ended);
    drop(ended);
    status
}

// Writes the lines with which it ended. The status is then the one due, unless the sink failed.
fn tell<K: Sink>(out: &mut K, ended: &Ended) -> Status
    ensures { HasTold (status_of ended.now) (text_of ended.now)
        (K.seen out.old) (K.seen out.new) result }
{
    match write_all(out, ended.text()) {
        Ok(()) => ended.status(),
        Err(Failed) => Status::WriteFault,
    }
}

// Does what the words ask for: how it ended, with the lines that are due; none where they ask for
// nothing.
fn carry_out<R, S, D, O, C, L>(
    host: &Host<'_, R, O>,
    words: &[String],
    objects: &mut Objects<S, D, C, L>,
) -> Option<Ended>
where
    R: Threads + Wait + Sync,
    S: Source,
    D: Disk,
    O: Observer,
    C: Crew + Drop,
    L: Link + Drop,
    requires { (plan : Plan) → TakenWords (texts words.now) plan
        → HasNeeds plan (outside S.seen D.seen C.seen L.seen objects.old) }
    ensures due { IsDue (texts words.now)
        (outside S.seen D.seen C.seen L.seen objects.old)
        (outside S.seen D.seen C.seen L.seen objects.new) (due_status result) (due_text result) }
    ensures best { IfSome result (λ e. IfSome (best_of e) (IsBestFor (texts words.now)
        (outside S.seen D.seen C.seen L.seen objects.old)
        (outside S.seen D.seen C.seen L.seen objects.new))) }
    ensures fault { IfSome result (λ e. IfSome (line_of e) (IsFaultFor (texts words.now)
        (outside S.seen D.seen C.seen L.seen objects.old))) }
{
    one_outcome();
    services_end_in_one_way();
    crossed_is_not_taken();
    match read_words(host.alloc, words) {
        Ok(plan) => Some(run_plan(host, &plan, objects)),
        Err(Usage::Memory) => Some(Ended::Memory),
        Err(Usage::Words) => None,
        Err(Usage::HighBelowLow { .. }) => None,
    }
}
