//! The words of the call, as the system hands them over.

use crate::explaining::is_explained;
use std::alloc::AllocError;
use std::io::Eprint;
use std::rt::Env;
use std::{env, io};
use zar_cli::statuses::{NO_WORDS, OUT_OF_MEMORY};

const NOT_UTF_8: &str = "error words not UTF-8\n";

const NOT_UTF_8_EXPLAINED: &str =
    "  a word of this call is not UTF-8; a file of such a name is read as standard input, /dev/stdin\n";

/// The words after the program's name, or why there are none.
pub fn words<R: Env + AllocGlobal>(rt: &R) -> io::Result<Vec<String>> {
    let all = env::args(rt)?;
    let mut words = Vec::new(rt.alloc());
    for word in all.skip(1) {
        words
            .push(word)
            .map_err(|refused| AllocError::from(refused))?;
    }
    Ok(words)
}

/// The status where there are no words for this reason. That one is not UTF-8 is said.
pub fn status_without<R: Env + AllocGlobal + Eprint>(
    rt: &R,
    why: &io::Error,
    err_is_seen: bool,
) -> u8 {
    match why.kind() {
        io::ErrorKind::OutOfMemory => OUT_OF_MEMORY,
        io::ErrorKind::InvalidData => {
            let _ = eprint!(rt; "{NOT_UTF_8}");
            if is_explained(rt, &[], err_is_seen) {
                let _ = eprint!(rt; "{NOT_UTF_8_EXPLAINED}");
            }
            NO_WORDS
        }
        _ => NO_WORDS,
    }
}
