// What a call answers.

ghost use Rattle.std.specs.Prelude.{◌≡◌, ◌≤◌, ◌<◌, ◌++◌, length, drop};
ghost use Rattle.gcl_text.specs.declared.refusing.TextRefusal.TheVariants.{Coded};
ghost use Rattle.zar_c.specs.Said.{place_of, bare, done, text_refused, mass_refused};
ghost use Rattle.zar_c.specs.inner.Refusing.{IsSaid};

use crate::statuses::{DONE, MASS_REFUSED, OUT_OF_MEMORY, TEXT_REFUSED};
use gcl_text::TextRefusal;

/// What a call answers: its status; the code of a refusal, or 0, and its place where it has one; and how long the lines are that
/// it tells, which it did not write where they had no room.
#[repr(C)]
#[derive(Drop)]
pub struct ZarSaid {
    pub status: u8,
    pub code: u8,
    pub has_place: bool,
    pub place: u32,
    pub length: u64,
}

// A status, and nothing besides.
pub(crate) fn said(status: u8) -> ZarSaid
    ensures { result ≡ bare status }
{
    ZarSaid {
        status,
        code: 0,
        has_place: false,
        place: 0,
        length: 0,
    }
}

// A text's refusal with this code, at this place.
fn coded(code: u8, at: Option<u32>) -> ZarSaid
    ensures status { result.status ≡ TEXT_REFUSED }
    ensures code { result.code ≡ code }
    ensures place { place_of result ≡ at }
    ensures form { result ≡ text_refused result.code (place_of result) }
{
    match at {
        Some(place) => ZarSaid {
            code,
            has_place: true,
            place,
            ..said(TEXT_REFUSED)
        },
        None => ZarSaid {
            code,
            ..said(TEXT_REFUSED)
        },
    }
}

// What a text's refusal is told as.
pub(crate) fn refused(refusal: TextRefusal) -> ZarSaid
    ensures { IsSaid refusal result }
{
    match refusal {
        TextRefusal::Coded(code, at) => coded(code, at),
        TextRefusal::OutOfMemory => said(OUT_OF_MEMORY),
    }
}

// Why there are no masses, by this code.
pub(crate) fn reason(code: u8) -> ZarSaid
    ensures { result ≡ mass_refused code }
{
    ZarSaid {
        code,
        ..said(MASS_REFUSED)
    }
}

// Writes a text to the front of an array where it fits, and tells its length.
pub(crate) fn written(text: &[u8], to: &mut [u8]) -> ZarSaid
    ensures told { result ≡ done (length text.now) }
    ensures written { length text.now ≤ length to.old → to.new ≡ text.now ++ drop (length text.now) to.old }
    ensures kept { length to.old < length text.now → to.new ≡ to.old }
{
    if text.len() <= to.len() {
        to[..text.len()].copy_from_slice(text);
    }
    ZarSaid {
        length: text.len() as u64,
        ..said(DONE)
    }
}
