// Canonical texts.

use gcl_core::{Expr, Names};
use gcl_print::{print, print_expr};
use gcl_text::parse_text;
use std::alloc::{AllocError, Global};
use std::test::Fail;

// The canonical text of the program that a text has.
fn printed(alloc: Global, text: &[u8]) -> Result<Vec<u8>, Fail> {
    Ok(print(alloc, &parse_text(alloc, text)?.program)?)
}

fn joined(alloc: Global, parts: &[&str]) -> Result<Vec<u8>, AllocError> {
    let mut whole = Vec::new(alloc);
    for part in parts {
        whole.extend_from_slice(part.as_bytes())?;
    }
    Ok(whole)
}

// Whether the program of the one text has the other as its canonical text.
fn prints_as(alloc: Global, text: &[&str], want: &[&str]) -> Result<bool, Fail> {
    let text = printed(alloc, &joined(alloc, text)?)?;
    Ok(text.as_slice() == joined(alloc, want)?.as_slice())
}

fn opening(bare: bool) -> &'static str {
    if bare { "" } else { "(" }
}

fn closing(bare: bool) -> &'static str {
    if bare { "" } else { ")" }
}

// An operator and its level.
type Operator = (&'static str, u8);

const OPERATORS: [Operator; 13] = [
    ("or", 1),
    ("and", 2),
    ("=", 4),
    ("!=", 4),
    ("<", 4),
    ("<=", 4),
    (">", 4),
    (">=", 4),
    ("+", 5),
    ("-", 5),
    ("*", 6),
    ("/", 6),
    ("%", 6),
];

// Whether each operator has brackets at the left of this one exactly where its level is too low.
fn left_is_right(
    alloc: Global,
    operators: &[Operator],
    outer: &'static str,
    level: u8,
) -> Result<bool, Fail> {
    for &(inner, inner_level) in operators {
        let bare = inner_level >= if level == 4 { 5 } else { level };
        let text = ["return (x ", inner, " y) ", outer, " 1;"];
        let (open, close) = (opening(bare), closing(bare));
        let want = [
            "return ", open, "x ", inner, " y", close, " ", outer, " 1;\n",
        ];
        if !prints_as(alloc, &text, &want)? {
            return Ok(false);
        }
    }
    Ok(true)
}

// The same at the right.
fn right_is_right(
    alloc: Global,
    operators: &[Operator],
    outer: &'static str,
    level: u8,
) -> Result<bool, Fail> {
    for &(inner, inner_level) in operators {
        let bare = inner_level > level;
        let text = ["return 1 ", outer, " (x ", inner, " y);"];
        let (open, close) = (opening(bare), closing(bare));
        let want = [
            "return 1 ",
            outer,
            " ",
            open,
            "x ",
            inner,
            " y",
            close,
            ";\n",
        ];
        if !prints_as(alloc, &text, &want)? {
            return Ok(false);
        }
    }
    Ok(true)
}

// The same below a sign and below `not`.
fn below_is_right(alloc: Global, inner: &'static str, level: u8) -> Result<bool, Fail> {
    let bare = level >= 3;
    let signed = ["return -(x ", inner, " y);"];
    let opposite = ["return not (x ", inner, " y);"];
    let (open, close) = (opening(bare), closing(bare));
    let want = ["return not ", open, "x ", inner, " y", close, ";\n"];
    Ok(
        prints_as(alloc, &signed, &["return -(x ", inner, " y);\n"])?
            && prints_as(alloc, &opposite, &want)?,
    )
}

fn all_are_right(alloc: Global, operators: &[Operator]) -> Result<bool, Fail> {
    for &(text, level) in operators {
        if !left_is_right(alloc, operators, text, level)?
            || !right_is_right(alloc, operators, text, level)?
            || !below_is_right(alloc, text, level)?
        {
            return Ok(false);
        }
    }
    Ok(true)
}

#[test]
fn operators(rt: HostRuntime) -> Result<(), Fail> {
    assert!(rt; all_are_right(rt.alloc(), &OPERATORS)?);
    Ok(())
}

// A number below 0, which a text spells by a sign.
#[test]
fn numbers_below_0(rt: HostRuntime) -> Result<(), Fail> {
    let names = Names::new(rt.alloc());
    for (n, want) in [(-3, "-3"), (i64::MIN, "-9223372036854775808")] {
        let text = print_expr(rt.alloc(), &Expr::Num(n), &names)?;
        assert_eq!(rt; text.as_slice(), want.as_bytes());
    }
    Ok(())
}

const CHOICE: &str = "choice 2/3 {
  x := 1;
} or {
  x := 2;
}
return (1 + 2) * 3 - (4 - 5);
";

const NESTED: &str = "x := -3;
if true {
} else {
  y ~ uniform(x + 1);
  while not false {
    choice 2/4 {
    } or {
      skip;
    }
    if true {
      observe x = y;
    }
  }
}
return x;
";

const CHOOSE: &str = "choose {
  3: {
    x := 1;
  } | 2: {
    x := 2;
  } | 1: {
    x := 3;
  }
}
return x;
";

const WITHIN_ARMS: &str = "choose {
  2: {
  } | 4: {
    choose {
      0: {
        skip;
      } | 10: {
      }
    }
    y := x;
  }
}
return y;
";

const PROGRAMS: [(&'static str, &'static str); 8] = [
    ("return(((12)));", "return 12;\n"),
    ("return not(1=2)or true;", "return not 1 = 2 or true;\n"),
    ("return - -1;", "return --1;\n"),
    ("return-(not y);", "return -(not y);\n"),
    ("choice 2/3{x:=1;}or{x:=2;}return((1+2)*3)-(4-5);", CHOICE),
    (
        "x:=-3;if true{}else{y~uniform(x+1);while not false{choice 2/4{}or{skip;}if true{observe x=y;}else{}}}return x;",
        NESTED,
    ),
    ("choose{3:{x:=1;}|2:{x:=2;}|1:{x:=3;}}return x;", CHOOSE),
    (
        "choose{2:{}|4:{choose{0:{skip;}|10:{}}y:=x;}}return y;",
        WITHIN_ARMS,
    ),
];

#[test]
fn programs(rt: HostRuntime) -> Result<(), Fail> {
    for (text, want) in PROGRAMS {
        assert!(rt; prints_as(rt.alloc(), &[text], &[want])?, "of {text}");
    }
    Ok(())
}
