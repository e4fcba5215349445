use std::alloc::{AllocError, Global};

// The word at a place, or none.
pub fn word<'a>(words: &[&'a str], at: usize) -> &'a str {
    match words.get(at) {
        Some(word) => word,
        None => "",
    }
}

// The words of a line, which this character parts.
pub fn split<'a>(alloc: Global, text: &'a str, by: char) -> Result<Vec<&'a str>, AllocError> {
    let mut words = Vec::new(alloc);
    for word in text.split(by) {
        words.push(word)?;
    }
    Ok(words)
}

pub fn count(word: &str) -> Option<u64> {
    word.parse::<u64>().ok()
}

pub fn small(word: &str) -> Option<u32> {
    word.parse::<u32>().ok()
}

pub fn bound(word: &str) -> Option<i32> {
    word.parse::<i32>().ok()
}

pub fn value(word: &str) -> Option<i128> {
    word.parse::<i128>().ok()
}
