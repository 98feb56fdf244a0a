// What refusals mean.

use crate::help::Page;
use gcl_core::{
    DEEPEST_NESTING, GREATEST_DENOMINATOR, GREATEST_LITERAL, LONGEST_NAME, LONGEST_TEXT,
    MOST_NAMES, MOST_OPERATORS,
};
use mass_fold::MOST_STATES;

/// What each refusal means, at the number of its code: a sentence, and then what is wrong and what would be right.
/// There is no code 0.
pub const REFUSALS: [Page; 18] = [
    ("", &[]),
    (
        "the text has more than ",
        &[&[
            ("", Some(LONGEST_TEXT as u64)),
            (
                " bytes; comments and blanks count

mend: leave out comments, or say with a loop what is said again and again
",
                None,
            ),
        ]],
    ),
    (
        "no number, name, symbol or comment begins with this byte

wrong: if !(x = 1) { x := 1; } return x;
right: if not (x = 1) { x := 1; } return x;
",
        &[],
    ),
    (
        "this number is above ",
        &[&[
            ("", Some(GREATEST_LITERAL)),
            ("\n\nwrong: return ", Some(GREATEST_LITERAL + 1)),
            (";\nright: return ", Some(GREATEST_LITERAL)),
            (";\n", None),
        ]],
    ),
    (
        "this name has more than ",
        &[&[
            ("", Some(LONGEST_NAME as u64)),
            (" bytes\n\nmend: shorten it\n", None),
        ]],
    ),
    (
        "the program cannot go on with what stands here, or the text ends too early

wrong: x = 1; return x;
right: x := 1; return x;
",
        &[],
    ),
    (
        "more than ",
        &[&[
            ("", Some(DEEPEST_NESTING as u64)),
            (
                " brackets and braces are open here, or more than ",
                Some(MOST_OPERATORS as u64),
            ),
            (
                " operators stand in one expression

mend: keep a part of the expression in a variable, and read that
",
                None,
            ),
        ]],
    ),
    (
        "a number stands where a truth is wanted, or a truth where a number is

wrong: x := 1; if x { x := 2; } return x;
right: x := 1; if x = 1 { x := 2; } return x;
",
        &[],
    ),
    (
        "this statement reads a name that no statement sets

wrong: count := 1; return cuont;
right: count := 1; return count;
",
        &[],
    ),
    (
        "the text has more than ",
        &[&[
            ("", Some(MOST_NAMES as u64)),
            (
                " names

mend: use a variable again where its value is read no more
",
                None,
            ),
        ]],
    ),
    (
        "the weight of this choice has the denominator 0, or all parts of this choose are 0

wrong: choice 1/0 { x := 1; } or { x := 2; } return x;
right: choice 1/2 { x := 1; } or { x := 2; } return x;
",
        &[],
    ),
    (
        "the weight of this choice is above 1

wrong: choice 3/2 { x := 1; } or { x := 2; } return x;
right: choice 2/3 { x := 1; } or { x := 2; } return x;
",
        &[],
    ),
    (
        "in lowest terms, a denominator here is above ",
        &[&[
            ("", Some(GREATEST_DENOMINATOR)),
            (
                ", or the sum of the parts of a choose

wrong: choice 1/",
                Some(GREATEST_DENOMINATOR + 1),
            ),
            (
                " { x := 1; } or { x := 2; } return x;
right: choice 1/",
                Some(GREATEST_DENOMINATOR),
            ),
            (" { x := 1; } or { x := 2; } return x;\n", None),
        ]],
    ),
    (
        "a fraction, or a number on the way to one, is wider than ",
        &[&[
            ("", Some(u128::BITS as u64)),
            (
                " bits

mend: zar enclose is never too wide; zar exact may fit; or allow fewer turns, attempts, rounds and flips where given; zar tally counts runs
",
                None,
            ),
        ]],
    ),
    (
        "a point of this program is reached with more than ",
        &[&[
            ("", Some(MOST_STATES as u64)),
            (
                " different states

mend: zar enclose bounds what zar exact would print of a loop that counts; or allow fewer turns, beyond which its --all-turns and zar posterior still hold; or for zar mass set what is read no more to 0; zar tally counts runs
",
                None,
            ),
        ]],
    ),
    (
        "no run passes the observations, and nothing limits the rounds

wrong: x ~ uniform(6); observe x = 6; return x;
right: x ~ uniform(6); observe x = 5; return x;
",
        &[],
    ),
    (
        "the words are no command: the word of this number is wrong or missing, counted from 0 behind zar

wrong: zar mass die.gcl --turn 5
right: zar mass die.gcl --turns 5

zar help lists the commands, and zar help COMMAND the options of one
",
        &[],
    ),
    (
        "no run passes the observations, or too few to be seen in weights of 120 bits, and nothing limits the rounds

mend: observe less in one round, or limit the rounds by --rounds; zar mass and zar exact round nothing, and tell which it is where they answer
",
        &[],
    ),
];
