//! What is shown behind the line of a refusal where a person reads it: the place, what is wrong, and what may help.

use crate::calls::{call_marked, row_of, wrong_word};
use crate::quoting::quoted;
use gcl_core::refusals::BAD_WORDS;
use std::alloc::{AllocError, Global};
use std::fs::OpenFile;
use std::io::Eprint;
use std::rt::Env;
use std::{env, fs, rt};
use terminal::excerpt::{excerpt, shown};
use terminal::find_wrong;
use zar_cli::{EXPLAIN, Form, REFUSALS};
use zar_io::{Files, HostFiles, OpenError};

// The code of a refusal and its place, if its line has them.
fn refusal_in(line: &str) -> Option<(u8, Option<usize>)> {
    let (code, rest) = line.strip_prefix("error E")?.split_once(' ')?;
    let place = match rest.rsplit_once(" at ") {
        Some((_, place)) => place.parse::<usize>().ok(),
        None => None,
    };
    Some((code.parse::<u8>().ok()?, place))
}

// Adds the words of a piece of a page, and the number behind them.
fn push_piece(
    alloc: Global,
    text: &mut String,
    words: &str,
    number: Option<u64>,
) -> Result<(), AllocError> {
    text.push_str(words)?;
    match number {
        Some(n) => text.push_str(format!(in alloc; "{n}")?.as_str()),
        None => Ok(()),
    }
}

// What help says of a code.
fn help_text(alloc: Global, code: u8) -> Result<String, AllocError> {
    let mut text = String::new(alloc);
    if let Some((words, parts)) = REFUSALS.get(usize::from(code)) {
        text.push_str(words)?;
        for part in *parts {
            for (words, number) in *part {
                push_piece(alloc, &mut text, words, *number)?;
            }
        }
    }
    Ok(text)
}

// The sentence of a code, and what may help.
fn page_front(alloc: Global, code: u8) -> Result<String, AllocError> {
    let page = help_text(alloc, code)?;
    let mut said = String::new(alloc);
    for (i, line) in page.lines().enumerate() {
        if i == 0 || line.starts_with("mend: ") {
            said.push_str("  ")?;
            said.push_str(line)?;
            said.push('\n')?;
        }
    }
    Ok(said)
}

// The text of a file that can be read twice.
fn text_of<R: rt::Files + AllocGlobal>(rt: &R, name: &str) -> Option<Vec<u8>> {
    let file = fs::open(rt, name).ok()?;
    if file.metadata().ok()?.is_file() {
        fs::read(rt, name).ok()
    } else {
        None
    }
}

// The place of a refusal in a text.
fn of_place(
    alloc: Global,
    name: &str,
    text: &[u8],
    code: u8,
    at: usize,
) -> Result<String, AllocError> {
    let end = text.trim_ascii_end().len();
    match find_wrong(alloc, text, code, at)? {
        Some(found) => {
            let excerpt = excerpt(alloc, name, text, found.from.min(end), found.length)?;
            format!(in alloc; "{excerpt}  {}\n", found.said)
        }
        None => {
            let excerpt = excerpt(alloc, name, text, at.min(end), 1)?;
            format!(in alloc; "{excerpt}{}", page_front(alloc, code)?)
        }
    }
}

// What is wrong with a text, or with masses.
fn of_text<R: rt::Files + AllocGlobal>(
    rt: &R,
    words: &[String],
    code: u8,
    place: Option<usize>,
) -> Result<String, AllocError> {
    let alloc = rt.alloc();
    let said = match (place, words.get(1)) {
        (Some(at), Some(name)) => match text_of(rt, name.as_str()) {
            Some(text) => of_place(alloc, name.as_str(), text.as_slice(), code, at)?,
            None => page_front(alloc, code)?,
        },
        _ => page_front(alloc, code)?,
    };
    format!(in alloc; "{said}  'zar help E{code}' says more\n")
}

// What is wrong with words.
fn of_words(alloc: Global, words: &[String], at: usize) -> Result<String, AllocError> {
    let call = call_marked(alloc, words, at)?;
    let wrong = wrong_word(alloc, words, at)?;
    match words.first() {
        Some(command) if row_of(words).is_some() => {
            format!(in alloc; "{call}  {wrong}\n  'zar help {command}' lists its options\n")
        }
        _ => format!(in alloc; "{call}  {wrong}\n  'zar help' lists the commands\n"),
    }
}

// The word of this number names a file.
fn is_name(words: &[String], i: usize) -> bool {
    match (i, words.get(i.saturating_sub(1))) {
        (1, _) => matches!(row_of(words), Some((_, Form::Name, _, _))),
        (_, Some(option)) => i > 1 && option.as_str() == "--bits",
        _ => false,
    }
}

// The first file that the words name and whose opening fails so.
fn unopened<'w, R: rt::Files>(rt: &R, words: &'w [String], why: OpenError) -> Option<&'w str> {
    let mut files = HostFiles::new(rt);
    for (i, word) in words.iter().enumerate() {
        if is_name(words, i) && files.open(word.as_str()) == Err(why) {
            return Some(word.as_str());
        }
    }
    None
}

fn is_folder<R: rt::Files + AllocGlobal>(rt: &R, name: &str) -> bool {
    match fs::open(rt, name) {
        Ok(file) => file.metadata().is_ok_and(|told| told.is_dir()),
        Err(_) => false,
    }
}

// The first folder that the words name as a file.
fn folder<'w, R: rt::Files + AllocGlobal>(rt: &R, words: &'w [String]) -> Option<&'w str> {
    for (i, word) in words.iter().enumerate() {
        if is_name(words, i) && is_folder(rt, word.as_str()) {
            return Some(word.as_str());
        }
    }
    None
}

// Which file is missing.
fn of_missing<R: rt::Files + AllocGlobal>(rt: &R, words: &[String]) -> Result<String, AllocError> {
    let Some(name) = unopened(rt, words, OpenError::Missing) else {
        return Ok(String::new(rt.alloc()));
    };
    let why = match name {
        "-" => "; standard input is /dev/stdin",
        _ if name.starts_with("--") => " here; options stand behind the file",
        _ => " here",
    };
    format!(in rt.alloc(); "  there is no file {}{why}\n", quoted(rt.alloc(), name)?)
}

// Which file the system does not open, and why.
fn of_unopened<R: rt::Files + AllocGlobal>(rt: &R, words: &[String]) -> Result<String, AllocError> {
    if let Some(name) = unopened(rt, words, OpenError::Failed) {
        if let Err(error) = fs::open(rt, name) {
            let quoted = quoted(rt.alloc(), name)?;
            return format!(in rt.alloc(); "  {quoted} does not open: {error}\n");
        }
    }
    match folder(rt, words) {
        Some(name) => format!(in rt.alloc(); "  {} is a folder\n", quoted(rt.alloc(), name)?),
        None => Ok(String::new(rt.alloc())),
    }
}

// What is said behind this line.
fn explanation<R: rt::Files + AllocGlobal>(
    rt: &R,
    words: &[String],
    line: &str,
) -> Result<String, AllocError> {
    match refusal_in(line) {
        Some((BAD_WORDS, Some(at))) => of_words(rt.alloc(), words, at),
        Some((code, place)) => of_text(rt, words, code, place),
        None if line == "error no file" => of_missing(rt, words),
        None if line == "error read fault" => of_unopened(rt, words),
        None => Ok(String::new(rt.alloc())),
    }
}

// The same with a question mark for each character that does not print.
fn printable(alloc: Global, said: &str) -> Result<String, AllocError> {
    let mut printed = String::new(alloc);
    for (_, letter) in said.char_indices() {
        printed.push(if letter == '\n' { '\n' } else { shown(letter) })?;
    }
    Ok(printed)
}

/// Shows on standard error what the line of a refusal means, which was written there. What cannot be worked out is left out.
pub fn explain<R: rt::Files + AllocGlobal + Eprint>(rt: &R, words: &[String], line: &[u8]) {
    if let Ok(line) = str::from_utf8(line) {
        if let Ok(said) = explanation(rt, words, line.trim_end()) {
            if let Ok(printed) = printable(rt.alloc(), said.as_str()) {
                let _ = eprint!(rt; "{printed}");
            }
        }
    }
}

/// What a refusal means is shown: a person reads standard error at a terminal, or has asked for it.
pub fn is_explained<R: Env + AllocGlobal>(rt: &R, words: &[String], err_is_seen: bool) -> bool {
    err_is_seen
        || words.iter().any(|word| word.as_str() == EXPLAIN.0)
        || env::var(rt, "ZAR_EXPLAIN").is_ok_and(|value| value.as_str() == "1")
}
