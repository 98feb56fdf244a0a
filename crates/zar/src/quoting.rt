//! A word as a message quotes it.

use std::alloc::{AllocError, Global};

// The most letters of a word that are quoted.
const QUOTED: usize = 40;

/// A word, cut where it is long.
pub fn front(alloc: Global, word: &str) -> Result<String, AllocError> {
    let mut front = String::new(alloc);
    for (i, (_, letter)) in word.char_indices().enumerate() {
        if i == QUOTED {
            front.push_str("..")?;
            return Ok(front);
        }
        front.push(letter)?;
    }
    Ok(front)
}

/// It in quotes.
pub fn quoted(alloc: Global, word: &str) -> Result<String, AllocError> {
    format!(in alloc; "'{}'", front(alloc, word)?)
}
