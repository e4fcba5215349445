use std::alloc::{AllocError, Global};
use ug_book::{Answered, Book};
use ug_frames::Order;
use ug_nodes::{Change, Changes, Name, Node, Ticket};
use ug_problem::Broken;
use ug_rows::Point;
use ug_rules::{Heard, Told};

// Adds a piece at the end of a line, if there was memory for it.
fn push(text: &mut String, piece: Result<String, AllocError>) -> Result<(), AllocError> {
    let piece = piece?;
    let pushed = text.push_str(&piece);
    drop(piece);
    pushed
}

fn push_optional(alloc: Global, text: &mut String, value: Option<i128>) -> Result<(), AllocError> {
    match value {
        Some(value) => push(text, format!(in alloc; "{value}")),
        None => text.push_str("none"),
    }
}

fn push_broken(alloc: Global, text: &mut String, broken: Broken) -> Result<(), AllocError> {
    let (what, number) = match broken {
        Broken::Length(number) => ("Length", number as u64),
        Broken::Column(number) => ("Column", u64::from(number)),
        Broken::Row(number) => ("Row", u64::from(number)),
    };
    push(
        text,
        format!(in alloc; "Broken Broken(what='{what}', number={number})"),
    )
}

// A word and two numbers.
fn push_two(
    alloc: Global,
    text: &mut String,
    word: &str,
    one: i128,
    other: i128,
) -> Result<(), AllocError> {
    push(text, format!(in alloc; "{word} {one} {other}"))
}

fn push_unbacked(
    alloc: Global,
    text: &mut String,
    cutoff: i128,
    incumbent: Option<i128>,
) -> Result<(), AllocError> {
    match incumbent {
        Some(incumbent) => push(text, format!(in alloc; "Unbacked {cutoff} {incumbent}")),
        None => push(text, format!(in alloc; "Unbacked {cutoff} none")),
    }
}

/// Adds what an answer is in the words of the model.
pub fn push_heard(alloc: Global, text: &mut String, answer: Heard) -> Result<(), AllocError> {
    match answer {
        Heard::Kept => text.push_str("Kept"),
        Heard::Stale => text.push_str("Stale"),
        Heard::Early => text.push_str("Early"),
        Heard::Broken(first) => push_broken(alloc, text, first),
        Heard::NotBetter { kept, given } => push_two(alloc, text, "NotBetter", kept, given),
        Heard::InRace => text.push_str("InRace"),
        Heard::Again => text.push_str("Again"),
        Heard::Gap { want, got } => {
            push_two(alloc, text, "Gap", i128::from(want), i128::from(got))
        }
        Heard::Outside { column } => push(text, format!(in alloc; "Outside {column}")),
        Heard::Unbacked { cutoff, incumbent } => push_unbacked(alloc, text, cutoff, incumbent),
        Heard::Short { told, taken } => {
            push_two(alloc, text, "Short", i128::from(told), i128::from(taken))
        }
        Heard::Memory => text.push_str("Memory"),
    }
}

// Each change behind a comma, but for the first.
fn push_changes(alloc: Global, text: &mut String, changes: &Changes) -> Result<(), AllocError> {
    let mut joint = "";
    for change in changes.as_slice() {
        let Change { column, low, high } = *change;
        push(text, format!(in alloc; "{joint}{column}={low}..{high}"))?;
        joint = ",";
    }
    if joint.is_empty() {
        return text.push_str("[]");
    }
    Ok(())
}

// An order's word and its ticket.
fn push_ticketed(
    alloc: Global,
    text: &mut String,
    word: &str,
    ticket: Ticket,
) -> Result<(), AllocError> {
    let Ticket { run, number } = ticket;
    push(text, format!(in alloc; "{word} {run}.{number}"))
}

fn push_collect(
    alloc: Global,
    text: &mut String,
    ticket: Ticket,
    count: u32,
) -> Result<(), AllocError> {
    let Ticket { run, number } = ticket;
    push(text, format!(in alloc; "CollectIn {run}.{number} {count}"))
}

fn push_work(
    alloc: Global,
    text: &mut String,
    ticket: Ticket,
    params: u8,
    race: bool,
) -> Result<(), AllocError> {
    let Ticket { run, number } = ticket;
    let race = u8::from(race);
    push(
        text,
        format!(in alloc; "Work {run}.{number} {params} {race} "),
    )
}

// The cutoff of a box, and its changes.
fn push_box(
    alloc: Global,
    text: &mut String,
    cutoff: Option<i128>,
    changes: &Changes,
) -> Result<(), AllocError> {
    push_optional(alloc, text, cutoff)?;
    text.push_str(" ")?;
    push_changes(alloc, text, changes)
}

// Adds what an order is in the words of the model.
fn push_order(alloc: Global, text: &mut String, order: &Order) -> Result<(), AllocError> {
    match order {
        Order::Work {
            ticket,
            params,
            race,
            cutoff,
            changes,
        } => {
            push_work(alloc, text, *ticket, params.number(), *race)?;
            push_box(alloc, text, *cutoff, changes)
        }
        Order::Incumbent { cutoff } => push(text, format!(in alloc; "Incumbent {cutoff}")),
        Order::CollectIn { ticket, count } => push_collect(alloc, text, *ticket, *count),
        Order::CollectOut { ticket } => push_ticketed(alloc, text, "CollectOut", *ticket),
        Order::Winner { ticket } => push_ticketed(alloc, text, "Winner", *ticket),
        Order::Stop { ticket } => push_ticketed(alloc, text, "Stop", *ticket),
        Order::Setup { .. } => text.push_str("Setup"),
        Order::End => text.push_str("End"),
    }
}

fn push_told(alloc: Global, text: &mut String, told: &Told) -> Result<(), AllocError> {
    let rank = told.rank;
    push(text, format!(in alloc; "{rank} "))?;
    push_order(alloc, text, &told.order)
}

/// Adds the orders that wait, each with its rank.
pub fn push_orders(alloc: Global, text: &mut String, book: &mut Book) -> Result<(), AllocError> {
    let mut joint = "";
    while let Some(told) = book.next_order() {
        text.push_str(joint)?;
        let pushed = push_told(alloc, text, &told);
        drop(told);
        pushed?;
        joint = "; ";
    }
    Ok(())
}

// The own names of the nodes.
fn push_names(alloc: Global, text: &mut String, nodes: &[&Node]) -> Result<(), AllocError> {
    for node in nodes {
        let Name { ticket, hand } = node.line.name();
        let Ticket { run, number } = ticket;
        push(text, format!(in alloc; " {run}.{number}/{hand}"))?;
    }
    Ok(())
}

fn push_point(alloc: Global, text: &mut String, point: &Point) -> Result<(), AllocError> {
    let mut joint = "(";
    for value in point.as_slice() {
        push(text, format!(in alloc; "{joint}{value}"))?;
        joint = ", ";
    }
    text.push_str(")")
}

// The names of all nodes that are held, in order.
fn push_held(alloc: Global, text: &mut String, book: &Book) -> Result<(), AllocError> {
    text.push_str("held")?;
    let mut nodes = book.held()?;
    let sorted = nodes.sort_by_key(|node| node.line.name());
    let pushed = push_names(alloc, text, &nodes);
    drop(nodes);
    sorted?;
    pushed
}

fn push_primitive(alloc: Global, text: &mut String, book: &Book) -> Result<(), AllocError> {
    text.push_str("; primitive")?;
    let nodes = book.primitive()?;
    let pushed = push_names(alloc, text, &nodes);
    drop(nodes);
    pushed
}

fn push_best(alloc: Global, text: &mut String, book: &Book) -> Result<(), AllocError> {
    text.push_str("; best ")?;
    match book.best() {
        Some(point) => push_point(alloc, text, point),
        None => text.push_str("None"),
    }
}

/// Adds how many nodes a book holds, and its best point.
pub fn push_left(alloc: Global, text: &mut String, book: &Book) -> Result<(), AllocError> {
    let nodes = book.held()?;
    let count = nodes.len();
    drop(nodes);
    push(text, format!(in alloc; "held {count}"))?;
    push_best(alloc, text, book)
}

/// Adds what a book holds, in the words of the model.
pub fn push_holds(alloc: Global, text: &mut String, book: &Book) -> Result<(), AllocError> {
    push_held(alloc, text, book)?;
    push_primitive(alloc, text, book)?;
    push_best(alloc, text, book)?;
    let heard = book.heard();
    push(text, format!(in alloc; "; heard {heard}"))
}

/// Adds what the book answers in the end.
pub fn push_answer(alloc: Global, text: &mut String, book: &Book) -> Result<(), AllocError> {
    match book.answer() {
        Some(Answered::Optimal(point)) => {
            text.push_str("optimal ")?;
            push_point(alloc, text, point)
        }
        Some(Answered::Infeasible) => text.push_str("infeasible"),
        None => text.push_str("none"),
    }
}
