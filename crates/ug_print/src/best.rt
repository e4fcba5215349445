ghost use Rattle.std.specs.Prelude.{◌≡◌, IfOk, IfSome};
ghost use Rattle.std.specs.Option.{option_copied};
ghost use Rattle.ug_problem.specs.Feasible.{Feasible};
ghost use Rattle.ug_print.specs.Limited.{IsBestWord, best_lines};

use crate::answers::push_value_lines;
use std::alloc::{AllocError, Global};
use ug_lists::Text;
use ug_problem::Problem;
use ug_rows::Point;

/// The value of the best point as it is printed, and `none` where there is none.
#[tactic(auto, using(crate::proofs::Widths::feasible_width))]
pub fn best_word(alloc: Global, problem: &Problem, best: Option<&Point>) -> Result<Text, AllocError>
    requires { IfSome (option_copied best) (Feasible problem.now) }
    ensures { IfOk result (IsBestWord problem.now (option_copied best.entry)) }
{
    match best {
        Some(point) => problem.print_value(alloc, problem.value(point)),
        None => Text::from_slice(alloc, b"none"),
    }
}

/// The lines of the columns of the best point that are not 0; none where there is no point.
#[tactic(auto, using(crate::proofs::Widths::feasible_width))]
pub fn best_lines(
    alloc: Global,
    problem: &Problem,
    best: Option<&Point>,
) -> Result<Vec<u8>, AllocError>
    requires { IfSome (option_copied best) (Feasible problem.now) }
    ensures { IfOk result (λ text. text.items
        ≡ best_lines problem.now (option_copied best.entry)) }
{
    let mut text = Vec::new(alloc);
    match best {
        Some(point) => {
            push_value_lines(&mut text, alloc, problem.columns(), point.as_slice())?;
            Ok(text)
        }
        None => Ok(text),
    }
}
