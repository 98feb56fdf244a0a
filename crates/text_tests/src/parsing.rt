// Programs that tokens derive, and where they derive none.

use crate::filling::filled;
use gcl_core::{BinOp, Expr, Stmt};
use gcl_lex::lex;
use gcl_parse::{ParseError, parse};
use gcl_text::parse_text;
use std::alloc::{AllocError, Global};
use std::test::Fail;

// The places of the statements and of the result, or the one where no program goes on.
type Places = Result<&'static [u32], u32>;

const PLACES: [(&'static [u8], Places); 22] = [
    (b"return 7;", Ok(&[0])),
    (b"skip; return 7;", Ok(&[0, 6])),
    (
        b"if x { y := 1; } else { skip; } return y;",
        Ok(&[0, 7, 24, 32]),
    ),
    (
        b"choice 1/2 { } or { x ~ uniform(3); } return 1 < 2;",
        Ok(&[0, 20, 38]),
    ),
    (
        b"while a < 3 { observe not a = 2; a := a + 1; } return (a);",
        Ok(&[0, 14, 33, 47]),
    ),
    (b"", Err(0)),
    (b"x := ;", Err(5)),
    (b"return 7", Err(8)),
    (b"return 7; skip;", Err(10)),
    (b"return 1 < 2 < 3;", Err(13)),
    (b"else { } return 1;", Err(0)),
    (b"if x { } skip; else { } return 1;", Err(15)),
    (b"choose x; return 1;", Err(7)),
    (
        b"choose{1:{skip;}|0:{x:=1;}|2:{}}return x;",
        Ok(&[0, 10, 20, 32]),
    ),
    (b"choose { 2: {} } return 1;", Err(15)),
    (b"choose {} return 1;", Err(8)),
    (b"choose { 1 {} | 1: {} } return 1;", Err(11)),
    (b"choose { 1: {} | } return 1;", Err(17)),
    (b"choose { 1: {} | 1: {} return 1;", Err(23)),
    (b"choice 1/x { } or { } return 1;", Err(9)),
    (b"x = 1; return x;", Err(2)),
    (b"return -not 1;", Err(8)),
];

fn stands(alloc: Global, text: &[u8], want: Places) -> Result<bool, Fail> {
    let tokens = lex(alloc, text)?;
    match parse(alloc, text, &tokens) {
        Ok(parsed) => match want {
            Ok(places) => Ok(parsed.places.into_vec().as_slice() == places),
            Err(_) => Ok(false),
        },
        Err(error) => match want {
            Ok(_) => Ok(false),
            Err(at) => Ok(error == ParseError::Unexpected { at }),
        },
    }
}

#[test]
fn answers_stand_at_their_places(rt: HostRuntime) -> Result<(), Fail> {
    for (text, want) in PLACES {
        assert!(rt; stands(rt.alloc(), text, want)?, "of {text:?}");
    }
    Ok(())
}

// A choice among `count` arms, and a result.
fn arms(alloc: Global, count: usize) -> Result<Vec<u8>, AllocError> {
    let mut text = b"choose{".to_vec(alloc)?;
    for i in 0..count {
        if i > 0 {
            text.push(b'|')?;
        }
        text.extend_from_slice(b"1:{}")?;
    }
    text.extend_from_slice(b"}return 1;")?;
    Ok(text)
}

const ARMS: [(usize, Places); 6] = [
    (0, Err(7)),
    (1, Err(11)),
    (2, Ok(&[0, 17])),
    (3, Ok(&[0, 22])),
    (16, Ok(&[0, 87])),
    (17, Err(86)),
];

#[test]
fn arms_are_from_two_to_sixteen(rt: HostRuntime) -> Result<(), Fail> {
    for (count, want) in ARMS {
        let text = arms(rt.alloc(), count)?;
        assert!(rt; stands(rt.alloc(), &text, want)?, "of {count} arms");
    }
    Ok(())
}

type Nested = (
    &'static [u8],
    u8,
    &'static [u8],
    u8,
    usize,
    &'static [u8],
    Option<u32>,
);

// A front, `count` times a byte, a middle, as many times the other byte, and a back; and where the nesting is too deep.
const NESTED: [Nested; 8] = [
    (b"return ", b'(', b"1", b')', 65, b";", Some(71)),
    (b"return ", b'(', b"1", b')', 64, b";", None),
    (b"return ", b'-', b"1;", b' ', 129, b"", Some(135)),
    (b"return ", b'-', b"1;", b' ', 128, b"", None),
    (b"x := ", b'-', b"1; return -1;", b' ', 128, b"", None),
    (b"; ", b'-', b"", b' ', 129, b"", Some(130)),
    (b"", b'{', b"", b'}', 65, b"", Some(64)),
    (b")) return ", b'(', b"1", b')', 65, b";", Some(74)),
];

fn is_as_deep(alloc: Global, row: &Nested) -> Result<bool, Fail> {
    let (front, byte, middle, other, count, back, want) = *row;
    let open = filled(alloc, front, byte, count, middle)?;
    let text = filled(alloc, &open, other, count, back)?;
    let tokens = lex(alloc, &text)?;
    let error = want.map(|at| ParseError::TooDeep { at });
    Ok(parse(alloc, &text, &tokens).err() == error)
}

#[test]
fn nesting_is_refused_before_the_grammar(rt: HostRuntime) -> Result<(), Fail> {
    for row in &NESTED {
        assert!(rt; is_as_deep(rt.alloc(), row)?, "of {row:?}");
    }
    Ok(())
}

#[test]
fn names_are_numbered_and_operators_grouped(rt: HostRuntime) -> Result<(), Fail> {
    let set = parse_text(rt.alloc(), b"b := 1; a := b; return -2 * 3;")?.program;
    assert_eq!(rt; set.names.count(), 2);
    assert_eq!(rt; set.names.get(0), b"b".as_slice());
    assert!(rt; matches!(set.body.stmts.get(0), Some(Stmt::Set(0, Expr::Num(1)))));
    assert!(rt; matches!(set.body.stmts.get(1), Some(Stmt::Set(1, Expr::Var(0)))));
    assert!(rt; matches!(set.result, Expr::Bin(BinOp::Mul, _, _)));
    let left = parse_text(rt.alloc(), b"return 1 - 2 + 3;")?.program;
    assert!(rt; matches!(left.result, Expr::Bin(BinOp::Add, _, _)));
    Ok(())
}

#[test]
fn arms_have_their_parts(rt: HostRuntime) -> Result<(), Fail> {
    let drawn = parse_text(
        rt.alloc(),
        b"choose { 3: { x := 1; } | 0: { } | 5: { skip; skip; } } return x;",
    )?
    .program;
    let mut found = Vec::new(rt.alloc());
    if let Some(Stmt::Choose(arms)) = drawn.body.stmts.get(0) {
        for (part, block) in &arms.arms {
            found.push((*part, block.stmts.len()))?;
        }
    }
    assert_eq!(rt; found.as_slice(), [(3, 1), (0, 0), (5, 2)].as_slice());
    Ok(())
}
