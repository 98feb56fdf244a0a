// From a text to its tokens.

ghost use Rattle.std.specs.Prelude.{◌≡◌, ◌≤◌, ◌++◌, ◌⊎◌, ℕ, List, length, IsTrue, IfOk, IfErr};
ghost use Rattle.gcl_core.specs.declared.rules.TheConstants as rule;
ghost use Rattle.gcl_core.specs.declared.tokens.PieceKind.{PieceKind as TheKind};
ghost use Rattle.gcl_core.specs.declared.tokens.Token.{Token as TheToken};
ghost use Rattle.gcl_core.specs.text.Pieces.{is_piece, Longest, Piece, Pieces};
ghost use Rattle.gcl_core.specs.text.Lexing.{IsLexed, IsRefused, LexRefusal};
ghost use Rattle.gcl_core.specs.text.Spans.{StandInOrder};
ghost use Rattle.gcl_lex.specs.Lexes.{Refuses};
ghost use Rattle.gcl_lex.specs.PieceEnds.{EndsBefore};

use crate::cutting::front_of;
use crate::error::LexError;
use crate::piece::token_kind;
use gcl_core::{LONGEST_TEXT, Token};
use std::alloc::Global;

/// The tokens of a text, each with the bytes that it spans. `TextTooLong` comes exactly where the text has more than 65,536
/// bytes; else `BadByte`, `NumberTooWide` or `NameTooLong` at the first place in reading order where no piece of a text
/// begins, a number is above 2^63 - 1 or a name has more than 64 bytes.
pub fn lex(alloc: Global, text: &[u8]) -> Result<Vec<Token>, LexError>
    ensures tokens { IfOk result (λ tokens. IsLexed text.now tokens.items) }
    ensures only { IfOk result (λ tokens. (others : List TheToken) → IsLexed text.now others → others ≡ tokens.items) }
    ensures accepted { IfOk result (λ tokens. (r : LexRefusal) → IsRefused text.now r → ⊥) }
    ensures short { IfOk result (λ tokens. length text.now ≤ rule.LONGEST_TEXT) }
    ensures order { IfOk result (λ tokens. StandInOrder 0 tokens.items (length text.now)) }
    ensures refused { IfErr result (λ e. Refuses text.now e) }
{
    if text.len() > LONGEST_TEXT {
        return Err(LexError::TextTooLong);
    }
    let mut tokens = Vec::new(alloc);
    let mut start: u32 = 0;
    let mut rest = text;
    while let Some(front) = front_of(rest) {
        let (bytes, behind) = rest.split_at(front.len);
        let end = start + front.len as u32;
        if let Some(kind) = token_kind(front.kind, bytes, start)? {
            tokens.push(Token { kind, start, end })?;
        }
        start = end;
        rest = behind;
    }
    if rest.is_empty() {
        Ok(tokens)
    } else {
        Err(LexError::BadByte { at: start })
    }
}

/// Each list of bytes has exactly one list of tokens, or is refused for exactly one reason at one place, and never both. It is
/// cut into pieces in at most one way.
pub fn one_answer()
    ensures some { (text : List ℕ) → ((ts : List TheToken) × IsLexed text ts) ⊎ ((r : LexRefusal) × IsRefused text r) }
    ensures pieces { (text : List ℕ) (ps qs : List Piece) → Pieces text ps → Pieces text qs → ps ≡ qs }
    ensures tokens { (text : List ℕ) (ts us : List TheToken) → IsLexed text ts → IsLexed text us → ts ≡ us }
    ensures refusal { (text : List ℕ) (r s : LexRefusal) → IsRefused text r → IsRefused text s → r ≡ s }
    ensures apart { (text : List ℕ) (ts : List TheToken) (r : LexRefusal) → IsLexed text ts → IsRefused text r → ⊥ }
{}

/// A piece is the longest at its place, where the byte behind it does not go on with it.
pub fn ends_here()
    ensures { (k : TheKind) (bytes rest : List ℕ) → IsTrue (is_piece k bytes) → EndsBefore k rest
        → Longest k (bytes ++ rest) (length bytes) }
{}
