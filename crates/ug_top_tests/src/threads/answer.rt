use ug_book::Answered;
use ug_restart::{End, Outcome};

/// The answer of a problem.
#[derive(Clone, Copy, Debug, PartialEq, Eq)]
pub enum Answer {
    Value(i128),
    Infeasible,
    /// It was not answered.
    Other,
}

/// The result of a solve.
pub fn answer_of(outcome: &Outcome) -> Answer {
    let End::Answered(book) = &outcome.end else {
        return Answer::Other;
    };
    match book.answer() {
        Some(Answered::Optimal(point)) => {
            let problem = book.problem().problem();
            if point.as_slice().len() != problem.columns().len() {
                return Answer::Other;
            }
            Answer::Value(problem.value(point))
        }
        Some(Answered::Infeasible) => Answer::Infeasible,
        None => Answer::Other,
    }
}
