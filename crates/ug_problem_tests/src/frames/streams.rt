use crate::expect::holds_at;
use crate::frames::bytes::spell;
use std::alloc::Global;
use ug_frames::Order;
use ug_stream::{Assembler, Next};

// Three orders: to work, to stop and the end.
const ORDERS: &str = "00000024 02 0000000000000001 0000000000000001 00 00 00 00000001 00000000 \
                      00000000 00000004 00000011 07 0000000000000001 0000000000000001 00000001 08";

// The end, a length that no frame has, and the end again.
const BAD: &str = "00000001 08 00000000 00000001 08";

// A letter for each order: to work, to stop and the end, or another.
fn letter(order: &Order) -> u8 {
    match order {
        Order::Work { .. } => b'w',
        Order::Stop { .. } => b's',
        Order::End => b'e',
        _ => b'?',
    }
}

// What comes next: an order, by its letter; `n` where more is needed; and `b` where the bytes from
// the fifth on are bad.
fn next(alloc: Global, assembler: &mut Assembler) -> u8 {
    match assembler.next::<Order>(alloc) {
        Ok(Next::Message(order)) => {
            let told = letter(&order);
            drop(order);
            told
        }
        Ok(Next::NeedMore) => b'n',
        Ok(Next::BadFrame { at: 5 }) => b'b',
        _ => b'?',
    }
}

// Adds what is reported of a piece, message by message, until more is needed or the bytes are bad.
// Whether there was memory for it.
fn add_told(alloc: Global, assembler: &mut Assembler, piece: &[u8], all: &mut Vec<u8>) -> bool {
    let mut so = assembler.feed(piece).is_ok();
    for _ in 0..4 {
        let told = next(alloc, assembler);
        if told == b'n' {
            break;
        }
        so = so && all.extend_from_slice(&[told]).is_ok();
    }
    so
}

// Adds what is reported of the bytes where they come in pieces of this length.
fn add_pieces(alloc: Global, bytes: &[u8], long: usize, all: &mut Vec<u8>) -> bool {
    let mut assembler = Assembler::new(alloc);
    let mut so = true;
    for at in 0..bytes.len() {
        if at.is_multiple_of(long) {
            let end = at.saturating_add(long).min(bytes.len());
            so = so && add_told(alloc, &mut assembler, &bytes[at..end], all);
        }
    }
    drop(assembler);
    so
}

// Whether that is reported first, and nothing behind it; or nothing but `b` where it ends so.
fn are(told: &[u8], wanted: &[u8]) -> bool {
    let Some(rest) = told.strip_prefix(wanted) else {
        return false;
    };
    for more in rest {
        if *more != b'b' || wanted.last() != Some(&b'b') {
            return false;
        }
    }
    true
}

// Whether these are reported of the bytes where they come in pieces of this length.
fn are_told(alloc: Global, text: &str, long: usize, wanted: &[u8]) -> bool {
    let mut bytes = Vec::new(alloc);
    let mut all = Vec::new(alloc);
    let so = spell(&mut bytes, text)
        && add_pieces(alloc, &bytes, long, &mut all)
        && are(&all, wanted);
    drop(bytes);
    drop(all);
    so
}

// 66 bytes, so in pieces of one byte, of any number, and at once.
#[test]
fn orders_are_given_whatever_the_pieces(rt: HostRuntime) {
    for long in 1..70 {
        holds_at(&rt, are_told(rt.alloc(), ORDERS, long, b"wse"), &long);
    }
}

// The first order is given, and then nothing but that the bytes from the fifth on are bad.
#[test]
fn bad_bytes_are_final_whatever_the_pieces(rt: HostRuntime) {
    for long in 1..15 {
        holds_at(&rt, are_told(rt.alloc(), BAD, long, b"eb"), &long);
    }
}
