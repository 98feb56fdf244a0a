//! What is wrong with the words of a call, and what would be right.

use crate::quoting::{front, quoted};
use std::alloc::{AllocError, Global};
use terminal::Nearest;
use terminal::excerpt::marked;
use weighted_roll::{GREATEST_SUM, MOST_LISTED};
use zar_cli::{Form, HELP, Options, Row, Setting, VERBS, VERSION_WORD, Verb};

/// The row of the command that the first word is.
pub fn row_of(words: &[String]) -> Option<Row> {
    let word = words.first()?;
    for (name, row) in &VERBS {
        if word.as_str() == *name {
            return Some(*row);
        }
    }
    None
}

fn setting_of(takes: &[Setting], word: &str) -> Option<Setting> {
    for setting in takes {
        if setting.0 == word {
            return Some(*setting);
        }
    }
    None
}

// The options behind the command and the word behind it.
fn options<'a>(takes: &'a [Setting], words: &'a [String]) -> Options<'a> {
    Options {
        takes,
        words: words.get(2..).unwrap_or(&[]),
    }
}

// The option whose name stands at this place, or whose value does or is missing there: its name, and whether it is the value.
fn option_at<'a>(takes: &'a [Setting], words: &'a [String], at: usize) -> Option<(&'a str, bool)> {
    let mut options = options(takes, words);
    let mut begin = 2;
    for place in 2..words.len() {
        if place == begin {
            let (name, value, rest) = options.first()?;
            if at == place {
                return Some((name, false));
            }
            if at == place.saturating_add(1) && !stands_alone(takes, name) {
                return Some((name, true));
            }
            begin = place.saturating_add(if value.is_some() { 2 } else { 1 });
            options = rest;
        }
    }
    None
}

fn stands_alone(takes: &[Setting], name: &str) -> bool {
    matches!(setting_of(takes, name), Some((_, Form::Alone)))
}

// The option is one of those that begin before this place.
fn is_given(takes: &[Setting], words: &[String], at: usize, option: &str) -> bool {
    let mut options = options(takes, words);
    let mut begin = 2;
    for place in 2..words.len() {
        if place == begin && place < at {
            if let Some((name, value, rest)) = options.first() {
                if name == option {
                    return true;
                }
                begin = place.saturating_add(if value.is_some() { 2 } else { 1 });
                options = rest;
            }
        }
    }
    false
}

/// The call around the word of this number, with a mark under it, or behind the last.
pub fn call_marked(alloc: Global, words: &[String], at: usize) -> Result<String, AllocError> {
    let mut call = String::from_str(alloc, "zar ")?;
    let (mut from, mut length) = (call.len(), 1);
    for (i, word) in words.iter().enumerate() {
        if i == at {
            (from, length) = (call.len(), word.len());
        }
        call.push_str(word.as_str())?;
        call.push(' ')?;
    }
    if words.len() <= at {
        from = call.len();
    }
    marked(alloc, "  ", call.trim_end().as_bytes(), from, length)
}

// What a word of this form is.
fn form_said(alloc: Global, form: Form) -> Result<String, AllocError> {
    match form {
        Form::Name => String::from_str(alloc, "the name of a file"),
        Form::Number(least, most) => format!(in alloc; "a number from {least} to {most}"),
        Form::Weights => String::from_str(
            alloc,
            "a list of weights with a comma between two, as 3,2,1, none of which is the whole sum,",
        ),
        Form::Wanted => String::from_str(
            alloc,
            "a value, or a way to end as tally prints it, as 'limit turns'",
        ),
        Form::Alone => String::from_str(alloc, "no value"),
    }
}

// What is said where no command has the first word.
fn of_command(alloc: Global, words: &[String]) -> Result<String, AllocError> {
    let Some(word) = words.first() else {
        return String::from_str(alloc, "a command is missing");
    };
    let mut nearest = Nearest::to(word.as_str());
    for (name, _) in &VERBS {
        nearest = nearest.offer(alloc, name)?;
    }
    for name in &HELP {
        nearest = nearest.offer(alloc, name)?;
    }
    let question = nearest.offer(alloc, VERSION_WORD)?.question(alloc)?;
    format!(in alloc;
        "there is no command {}{question}",
        quoted(alloc, word.as_str())?
    )
}

// Behind `help` stands another word than that of a command.
fn of_topic(alloc: Global, words: &[String], at: usize) -> Result<String, AllocError> {
    let asks_for_help = words
        .first()
        .is_some_and(|word| word.as_str() != VERSION_WORD);
    let word = match words.get(at) {
        Some(word) if at == 1 && asks_for_help => word,
        _ => return String::from_str(alloc, "this is one word too many"),
    };
    let mut nearest = Nearest::to(word.as_str());
    for (name, _) in &VERBS {
        nearest = nearest.offer(alloc, name)?;
    }
    let question = nearest.question(alloc)?;
    format!(in alloc;
        "{} is no command, and no code from E1 to E17{question}",
        quoted(alloc, word.as_str())?
    )
}

// The word lists numbers.
fn lists_numbers(word: &str) -> bool {
    !word.is_empty()
        && word
            .bytes()
            .all(|byte| byte.is_ascii_digit() || byte == b',')
}

// What is said of a word that is no list of weights which a roll may have.
fn of_weights(alloc: Global, word: Option<&String>) -> Result<String, AllocError> {
    if word.is_some_and(|word| lists_numbers(word.as_str())) {
        format!(in alloc;
            "a roll takes 2 to {MOST_LISTED} weights, two of them above 0, and a sum of at most {GREATEST_SUM}"
        )
    } else {
        String::from_str(
            alloc,
            "weights are wanted here, with a comma between two, as 3,2,1",
        )
    }
}

// The word behind a command is missing, or of another form.
fn of_first(alloc: Global, form: Form, word: Option<&String>) -> Result<String, AllocError> {
    match form {
        Form::Weights => of_weights(alloc, word),
        Form::Name => String::from_str(
            alloc,
            "the file of the program is missing; standard input is /dev/stdin",
        ),
        _ => format!(in alloc; "{} is wanted here", form_said(alloc, form)?),
    }
}

// What is said of a word at this place that is misplaced, whatever option the command takes.
fn misplaced(takes: &[Setting], words: &[String], at: usize, word: &str) -> Option<&'static str> {
    if word.starts_with('-') && HELP.iter().any(|help| *help == word) {
        return Some("help stands right behind the command");
    }
    if words.get(1).is_some_and(|first| first.starts_with("--")) {
        return Some("the file comes first, before all options");
    }
    if word.starts_with('-') {
        return None;
    }
    match (words.get(at.saturating_sub(1)), row_of(words)) {
        (Some(before), _) if stands_alone(takes, before.as_str()) => {
            Some("the option before this takes no value")
        }
        (_, Some((Verb::Check, _, _, _))) => Some("one file at a time; tools/lint checks many"),
        (_, Some((_, Form::Name, _, _))) => Some("one file at a time: an option begins with --"),
        _ => Some("an option begins with --"),
    }
}

// An option that the command does not take, or that was given.
fn of_option(
    alloc: Global,
    takes: &[Setting],
    words: &[String],
    at: usize,
    word: &str,
) -> Result<String, AllocError> {
    if let Some(said) = misplaced(takes, words, at, word) {
        return String::from_str(alloc, said);
    }
    if is_given(takes, words, at, word) {
        return format!(in alloc; "{word} was given before");
    }
    if setting_of(takes, word).is_some() {
        return String::from_str(
            alloc,
            "bits of a file and bits of a stream exclude each other",
        );
    }
    if let Some((name, value)) = word.split_once('=') {
        if setting_of(takes, name).is_some() {
            let value = front(alloc, value)?;
            return format!(in alloc; "an option and its value are two words: {name} {value}");
        }
    }
    let mut nearest = Nearest::to(word);
    for setting in takes {
        nearest = nearest.offer(alloc, setting.0)?;
    }
    let question = nearest.question(alloc)?;
    format!(in alloc;
        "this command has no option {}{question}",
        quoted(alloc, word)?
    )
}

// The value that the word at this place and the next one are together, where the option takes a way to end.
fn split_value(
    alloc: Global,
    form: Form,
    words: &[String],
    at: usize,
) -> Result<Option<String>, AllocError> {
    let (Form::Wanted, Some(first), Some(second)) = (
        form,
        words.get(at),
        words.get(at.saturating_add(1)),
    ) else {
        return Ok(None);
    };
    let both = format!(in alloc; "{first} {second}")?;
    if form.number(both.as_str()).is_some() {
        Ok(Some(both))
    } else {
        Ok(None)
    }
}

// The value of an option is missing, or of another form.
fn of_value(
    alloc: Global,
    row: &Row,
    words: &[String],
    at: usize,
    option: &str,
) -> Result<String, AllocError> {
    let is_there = at < words.len();
    let Some(setting) = setting_of(row.2, option) else {
        return String::from_str(alloc, "a value is missing here");
    };
    let form = form_said(alloc, setting.1)?;
    if let Some(both) = split_value(alloc, setting.1, words, at)? {
        return format!(in alloc; "one word is wanted: quote both, as '{both}'");
    }
    if is_there {
        format!(in alloc; "{option} takes {form}")
    } else {
        format!(in alloc; "the value of {option} is missing: {form}")
    }
}

// Something is missing behind all words, or the range is none.
fn of_end(alloc: Global, row: &Row, words: &[String]) -> Result<String, AllocError> {
    for setting in row.3 {
        if !is_given(row.2, words, words.len(), setting.0) {
            return format!(in alloc;
                "{} is missing: {}",
                setting.0,
                form_said(alloc, setting.1)?
            );
        }
    }
    match row.0 {
        Verb::Sample => String::from_str(
            alloc,
            "where bits come from is missing: --seed N or --bits FILE",
        ),
        Verb::Cost => String::from_str(
            alloc,
            "with a limit --attempts N and --rounds N are both needed; with none nothing is limited",
        ),
        Verb::Fast => String::from_str(alloc, "--stream and --budget need a --seed"),
        _ => String::from_str(
            alloc,
            "--to has to be at least --from, and at most 1099511627776 above it",
        ),
    }
}

// What is wrong with the word of this number behind the command of a row.
fn of_row(alloc: Global, row: &Row, words: &[String], at: usize) -> Result<String, AllocError> {
    if at < 2 {
        return of_first(alloc, row.1, words.get(at));
    }
    match option_at(row.2, words, at) {
        Some((name, false)) => of_option(alloc, row.2, words, at, name),
        Some((name, true)) => of_value(alloc, row, words, at, name),
        None => of_end(alloc, row, words),
    }
}

/// What is wrong with the word of this number.
pub fn wrong_word(alloc: Global, words: &[String], at: usize) -> Result<String, AllocError> {
    match (row_of(words), at) {
        (None, 0) => of_command(alloc, words),
        (None, _) => of_topic(alloc, words, at),
        (Some(row), _) => of_row(alloc, &row, words, at),
    }
}
