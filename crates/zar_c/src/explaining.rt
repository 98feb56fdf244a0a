// What is wrong with a text that is refused, and what may have been meant.

ghost use Rattle.std.specs.Prelude.{◌≡◌, ◌⊎◌};
ghost use Rattle.zar_c.specs.Answered.{AreTold};
ghost use Rattle.zar_c.specs.Said.{bare};

use crate::said::{ZarSaid, said, written};
use crate::statuses::{DONE, OUT_OF_MEMORY};
use std::alloc::{AllocError, Global};
use terminal::excerpt::shown;
use terminal::find_wrong;

// A hint, and where it stands in the text.
#[derive(Drop)]
struct Hint {
    place: u32,
    words: String,
}

// The words with a question mark for each character that does not print, and a line feed behind them.
fn printable(alloc: Global, words: &str) -> Result<String, AllocError> {
    let mut printed = String::new(alloc);
    for (_, letter) in words.char_indices() {
        printed.push(shown(letter))?;
    }
    printed.push('\n')?;
    Ok(printed)
}

// What is found wrong with a text that is refused with this code at this place.
fn find_hint(alloc: Global, text: &[u8], code: u8, place: u32) -> Result<Option<Hint>, AllocError> {
    match find_wrong(alloc, text, code, place as usize)? {
        Some(found) => Ok(Some(Hint {
            place: u32::try_from(found.from).unwrap_or(u32::MAX),
            words: printable(alloc, found.said.as_str())?,
        })),
        None => Ok(None),
    }
}

/// Writes the line of what is found wrong with a text that is refused with a code at a place, as a terminal shows it, where the array
/// has room, and tells its length in any case, and where in the text it stands. Where nothing is found, as it may be for want of
/// memory, there is no line and no place. The status is 0, or 5 where memory ran out, and then the array stays as it was. No clause
/// says what is found.
#[unsafe(no_mangle)]
pub extern "C" fn zar_explain(
    alloc: Global,
    text: &[u8],
    code: u8,
    place: u32,
    lines: &mut [u8],
) -> ZarSaid
    ensures told { (result.status ≡ DONE) → AreTold (λ _. Unit {0}) result.length lines.old lines.new }
    ensures untouched { (result.status ≡ DONE → ⊥) → lines.new ≡ lines.old }
    ensures form { (result.status ≡ DONE) ⊎ (result ≡ bare OUT_OF_MEMORY) }
    ensures code { result.code ≡ 0 }
{
    match find_hint(alloc, text, code, place) {
        Ok(Some(found)) => ZarSaid {
            has_place: true,
            place: found.place,
            ..written(found.words.as_bytes(), lines)
        },
        Ok(None) => written(b"", lines),
        Err(_) => said(OUT_OF_MEMORY),
    }
}
