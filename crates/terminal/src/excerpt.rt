//! A line of a text, with a mark under a place.

use std::alloc::{AllocError, Global};

// The most bytes of the line that are shown, and how many of them before the mark.
const WIDTH: usize = 76;

const BEFORE: usize = 50;

// The place of a byte: its line and its column, both from 1 on, and where its line begins.
#[derive(Clone, Copy)]
struct LinePlace {
    line: usize,
    column: usize,
    start: usize,
}

// Where the byte at an offset stands.
fn place_of(text: &[u8], offset: usize) -> LinePlace {
    let mut line: usize = 1;
    let mut start: usize = 0;
    for (i, byte) in text.iter().take(offset).enumerate() {
        if *byte == b'\n' {
            line = line.saturating_add(1);
            start = i.saturating_add(1);
        }
    }
    LinePlace {
        line,
        column: offset.saturating_sub(start).saturating_add(1),
        start,
    }
}

/// How a character is shown: one that does not print, or that changes how others stand, is a question mark.
pub fn shown(letter: char) -> char {
    match letter {
        '\t' => ' ',
        '\0'..='\u{1f}'
        | '\u{7f}'..='\u{9f}'
        | '\u{ad}'
        | '\u{61c}'
        | '\u{180e}'
        | '\u{200b}'..='\u{200f}'
        | '\u{2028}'..='\u{202e}'
        | '\u{2060}'..='\u{206f}'
        | '\u{feff}'
        | '\u{fff9}'..='\u{fffb}'
        | '\u{e0000}'..='\u{e007f}' => '?',
        _ => letter,
    }
}

// How a byte of a line that is not UTF-8 is shown.
fn shown_byte(byte: u8) -> char {
    if byte < 0x80 {
        shown(char::from(byte))
    } else {
        '?'
    }
}

// The bytes of the line that begins at a place, without its end.
fn line_from(text: &[u8], start: usize) -> &[u8] {
    let rest = text.get(start..).unwrap_or(b"");
    let end = rest
        .iter()
        .position(|byte| *byte == b'\n')
        .unwrap_or(rest.len());
    let line = rest.get(..end).unwrap_or(rest);
    line.strip_suffix(b"\r").unwrap_or(line)
}

// A line around a place in it, and below it a mark of this length.
#[derive(Drop)]
struct MarkedLine {
    line: String,
    mark: String,
    at: usize,
    length: usize,
}

impl MarkedLine {
    // The character at this place of the line is shown, if it is near the mark.
    fn show(&mut self, place: usize, letter: char) -> Result<(), AllocError> {
        let first = self.at.saturating_sub(BEFORE);
        if place < first || place >= first.saturating_add(WIDTH) {
            return Ok(());
        }
        self.line.push(letter)?;
        if place < self.at {
            self.mark.push(' ')
        } else if place < self.at.saturating_add(self.length) {
            self.mark.push('^')
        } else {
            Ok(())
        }
    }
}

/// The line around the byte at this place in it, behind an indentation, and below it a mark of this length, or of one character
/// behind the line. An error comes only where memory runs out.
pub fn marked(
    alloc: Global,
    indentation: &str,
    line: &[u8],
    at: usize,
    length: usize,
) -> Result<String, AllocError> {
    let mut around = MarkedLine {
        line: String::from_str(alloc, indentation)?,
        mark: String::from_str(alloc, indentation)?,
        at,
        length,
    };
    match str::from_utf8(line) {
        Ok(letters) => {
            for (place, letter) in letters.char_indices() {
                around.show(place, shown(letter))?;
            }
        }
        Err(_) => {
            for (place, byte) in line.iter().enumerate() {
                around.show(place, shown_byte(*byte))?;
            }
        }
    }
    for _ in line.len()..at {
        around.mark.push(' ')?;
    }
    if !around.mark.as_str().ends_with('^') {
        around.mark.push('^')?;
    }
    format!(in alloc; "{}\n{}\n", around.line, around.mark)
}

/// The file, the line and the column of a place in it, and the line with a mark of this length under the place. An error comes
/// only where memory runs out.
pub fn excerpt(
    alloc: Global,
    file: &str,
    text: &[u8],
    from: usize,
    length: usize,
) -> Result<String, AllocError> {
    let place = place_of(text, from);
    let line = line_from(text, place.start);
    let marked = marked(
        alloc,
        "    ",
        line,
        from.saturating_sub(place.start),
        length,
    )?;
    format!(in alloc;
        "  {file}, line {}, column {}\n{marked}",
        place.line, place.column
    )
}
