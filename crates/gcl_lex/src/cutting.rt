// The piece at the front of a text.

ghost use Rattle.std.specs.Prelude.{◌≡◌, ◌≤◌, length, map};
ghost use Rattle.std.specs.List.{prefix_len};
ghost use Rattle.gcl_core.specs.text.Names.{value_named};
ghost use Rattle.gcl_core.specs.text.Pieces as piece;
ghost use Rattle.gcl_lex.specs.inner.Cutting as cutting;

use gcl_core::{PieceKind, SYMBOLS, Sym, value_named};

/// A piece at the front of a text, by its length in bytes.
#[derive(Clone, Copy)]
pub struct Front {
    pub kind: PieceKind,
    pub len: usize,
}

/// The symbol that these bytes spell, or none.
#[tactic(auto, unfolding(gcl_core::specs::text::Pieces::symbol_of))]
pub fn symbol(bytes: &[u8]) -> Option<Sym>
    ensures { result ≡ piece.symbol_of bytes.now }
{
    value_named(&SYMBOLS, bytes)
}

// The byte is a symbol, or one with `=` behind it.
fn begins_symbol(b: u8) -> bool
    ensures { result ≡ cutting.begins_symbol b }
{
    symbol(&[b]).is_some() || symbol(&[b, b'=']).is_some()
}

fn is_blank(b: u8) -> bool
    ensures { result ≡ piece.is_blank b }
{
    matches!(b, b' ' | b'\t' | b'\n' | b'\r')
}

fn is_digit(b: u8) -> bool
    ensures { result ≡ piece.is_digit b }
{
    b >= b'0' && b <= b'9'
}

fn is_letter(b: u8) -> bool
    ensures { result ≡ piece.is_letter b }
{
    (b >= b'a' && b <= b'z') || (b >= b'A' && b <= b'Z') || b == b'_'
}

fn goes_on_name(b: u8) -> bool
    ensures { result ≡ piece.goes_on_name b }
{
    is_letter(b) || is_digit(b)
}

fn digits(text: &[u8]) -> usize
    ensures value { result ≡ prefix_len piece.is_digit text.now }
    ensures within { result ≤ length text.now }
{
    text.iter().take_while(|b| is_digit(**b)).count()
}

fn name_rest(text: &[u8]) -> usize
    ensures value { result ≡ prefix_len piece.goes_on_name text.now }
    ensures within { result ≤ length text.now }
{
    text.iter().take_while(|b| goes_on_name(**b)).count()
}

fn comment_rest(text: &[u8]) -> usize
    ensures value { result ≡ prefix_len piece.in_comment text.now }
    ensures within { result ≤ length text.now }
{
    text.iter().take_while(|b| **b != b'\n').count()
}

#[tactic(auto, unfolding(crate::specs::inner::Cutting::kind_begun))]
fn kind_begun(b: u8) -> Option<PieceKind>
    ensures { result ≡ cutting.kind_begun b }
{
    if is_blank(b) {
        Some(PieceKind::Blank)
    } else if b == b'#' {
        Some(PieceKind::Comment)
    } else if is_digit(b) {
        Some(PieceKind::Number)
    } else if is_letter(b) {
        Some(PieceKind::Name)
    } else if begins_symbol(b) {
        Some(PieceKind::Symbol)
    } else {
        None
    }
}

fn symbol_front(b: u8, rest: &[u8]) -> Option<Front>
    ensures { result ≡ cutting.symbol_front b rest.now }
{
    if let Some(c) = rest.first() {
        if symbol(&[b, *c]).is_some() {
            return Some(Front {
                kind: PieceKind::Symbol,
                len: 2,
            });
        }
    }
    if symbol(&[b]).is_some() {
        Some(Front {
            kind: PieceKind::Symbol,
            len: 1,
        })
    } else {
        None
    }
}

/// The longest piece at the front, or none where no piece begins.
#[tactic(auto, unfolding(crate::specs::inner::Cutting::front_of))]
pub fn front_of(text: &[u8]) -> Option<Front>
    ensures { result ≡ cutting.front_of text.now }
{
    let (first, rest) = text.split_first()?;
    match kind_begun(*first)? {
        PieceKind::Blank => Some(Front {
            kind: PieceKind::Blank,
            len: 1,
        }),
        PieceKind::Comment => Some(Front {
            kind: PieceKind::Comment,
            len: 1 + comment_rest(rest),
        }),
        PieceKind::Number => Some(Front {
            kind: PieceKind::Number,
            len: 1 + digits(rest),
        }),
        PieceKind::Name => Some(Front {
            kind: PieceKind::Name,
            len: 1 + name_rest(rest),
        }),
        PieceKind::Symbol => symbol_front(*first, rest),
    }
}
