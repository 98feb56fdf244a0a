//! The word that was meant.

use std::alloc::{AllocError, Global};
use strsim::damerau_levenshtein;

/// The nearest of the words that are offered: the first with the fewest letters wrong, which may be a third of those of the
/// word; none is wrong where a capital stands for a small letter.
#[derive(Clone, Copy)]
pub struct Nearest<'w> {
    word: &'w str,
    best: Option<&'w str>,
    // fewer letters are wrong in a nearer one
    below: usize,
}

impl<'w> Nearest<'w> {
    /// None is offered yet.
    pub fn to(word: &'w str) -> Nearest<'w> {
        Nearest {
            word,
            best: None,
            below: (word.len() / 3).saturating_add(1),
        }
    }

    /// The nearest of those before and this one. An error comes only where memory runs out.
    pub fn offer(self, alloc: Global, other: &'w str) -> Result<Nearest<'w>, AllocError> {
        let wrong = if self.word.eq_ignore_ascii_case(other) {
            0
        } else {
            damerau_levenshtein(alloc, self.word, other)?
        };
        if wrong < self.below {
            Ok(Nearest {
                word: self.word,
                best: Some(other),
                below: wrong,
            })
        } else {
            Ok(self)
        }
    }

    /// A question for the nearest word; empty where none is near. An error comes only where memory runs out.
    pub fn question(self, alloc: Global) -> Result<String, AllocError> {
        match self.best {
            Some(best) => format!(in alloc; "; did you mean '{best}'?"),
            None => Ok(String::new(alloc)),
        }
    }
}
