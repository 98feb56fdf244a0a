// Writing lines and pages. No memory is taken, and the first write that fails ends it.

ghost use Rattle.std.specs.Prelude.{◌++◌, is_err, decimal, flat_map};
ghost use Rattle.zar_io.specs.Written.{IsWritten};
ghost use Rattle.zar_cli.specs.Help.{piece_text, topic_text};

use crate::help::{Part, Piece, Topic, page_of};
use itoa::Buffer;
use zar_io::{Failed, Sink, put};

pub fn put_text<S: Sink>(sink: &mut S, text: &[u8]) -> Result<(), Failed>
    ensures { IsWritten (is_err result) (S.answered sink.old) (S.answered sink.new) text.now }
{
    put(sink, text)?;
    Ok(())
}

fn put_number<S: Sink>(sink: &mut S, n: u64) -> Result<(), Failed>
    ensures { IsWritten (is_err result) (S.answered sink.old) (S.answered sink.new) (decimal n) }
{
    put_text(sink, Buffer::new().format(n).as_bytes())
}

fn put_piece<S: Sink>(sink: &mut S, words: &str, number: Option<u64>) -> Result<(), Failed>
    ensures { IsWritten (is_err result) (S.answered sink.old) (S.answered sink.new)
        (piece_text words.now number) }
{
    put_text(sink, words.as_bytes())?;
    match number {
        Some(n) => put_number(sink, n),
        None => Ok(()),
    }
}

fn put_part<S: Sink>(sink: &mut S, part: &[Piece]) -> Result<(), Failed>
    ensures { IsWritten (is_err result) (S.answered sink.old) (S.answered sink.new)
        (flat_map (λ piece. piece_text piece.0.now piece.1) part.now) }
{
    for (words, number) in part {
        put_piece(sink, words, *number)?;
    }
    Ok(())
}

fn put_parts<S: Sink>(sink: &mut S, parts: &[Part]) -> Result<(), Failed>
    ensures { IsWritten (is_err result) (S.answered sink.old) (S.answered sink.new)
        (flat_map (λ part. flat_map (λ piece. piece_text piece.0.now piece.1) part.now) parts.now) }
{
    for part in parts {
        put_part(sink, part)?;
    }
    Ok(())
}

fn put_page<S: Sink>(sink: &mut S, words: &str, parts: &[Part]) -> Result<(), Failed>
    ensures { IsWritten (is_err result) (S.answered sink.old) (S.answered sink.new)
        (words.now ++ flat_map (λ part. flat_map (λ piece. piece_text piece.0.now piece.1) part.now) parts.now) }
{
    put_text(sink, words.as_bytes())?;
    put_parts(sink, parts)
}

/// Writes the help that is asked for.
pub fn put_topic<S: Sink>(sink: &mut S, topic: Topic) -> Result<(), Failed>
    ensures { IsWritten (is_err result) (S.answered sink.old) (S.answered sink.new) (topic_text topic) }
{
    let (words, parts) = page_of(topic);
    put_page(sink, words, parts)
}
