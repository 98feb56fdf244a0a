// The tests of `weighted_roll`: rolls that were worked by hand.

ghost use Rattle.std.specs.Prelude.{◌≡◌, length};

use dice_roll::Roll;
use numbers::Frac;
use std::alloc::{AllocError, Global};
use std::test::Fail;
use std::thread::{Threads, join};
use weighted_roll::{Loaded, are_weights, roll, weigh_labels, weights_in};
use zar_io::{FaultyBits, ListBits};

// 3/6, 2/6 and 1/6 are .1, .0101.. and .0010..: on 0 label 0, on 10 label 1, on 110 label 2, on 1110 label 1.
const ROLLS: &[(&[bool], u64, Roll)] = &[
    (&[false], 9, Roll::Label(0, 1)),
    (&[true, false], 9, Roll::Label(1, 2)),
    (&[true, true, false], 9, Roll::Label(2, 3)),
    (&[true, true, true, false], 9, Roll::Label(1, 4)),
    (&[true, true, true, true, false], 9, Roll::Label(2, 5)),
    (&[true, true, true], 9, Roll::MoreBits(3)),
    (&[true, true, true], 3, Roll::Limit(3)),
    (&[], 0, Roll::Limit(0)),
];

#[test]
fn rolls_by_weights(rt: HostRuntime) -> Result<(), Fail> {
    let weights: [u64; 3] = [3, 2, 1];
    assert!(rt; are_weights(&weights));
    for (bits, flips, want) in ROLLS {
        assert!(rt; *flips <= 9);
        let mut rests: [u64; 3] = [0; 3];
        let mut bits = ListBits::new(rt.alloc(), bits)?;
        assert_eq!(rt; roll(&weights, &mut rests, *flips, &mut bits), Ok(*want));
    }
    Ok(())
}

// Columns that are laid out, and those behind them, by words of bits and by single ones.
#[test]
fn rolls_alike_at_every_depth(rt: HostRuntime) -> Result<(), Fail> {
    let weights: [u64; 3] = [3, 2, 1];
    assert!(rt; are_weights(&weights));
    for depth in 0..5 {
        let loaded = Loaded::new(rt.alloc(), &weights, depth)?;
        for (bits, flips, want) in ROLLS {
            assert!(rt; *flips <= 9);
            let mut room: [u64; 3] = [0; 3];
            let mut words = ListBits::new(rt.alloc(), bits)?;
            let by_words = loaded.roll(&mut room, *flips, &mut words);
            assert_eq!(rt; by_words, Ok(*want), "depth {depth}");
            // None of these lies ready, and no call of them fails.
            let mut single = FaultyBits::new(rt.alloc(), bits, &[])?;
            let bit_by_bit = loaded.roll(&mut room, *flips, &mut single);
            assert_eq!(rt; bit_by_bit, Ok(*want), "depth {depth}");
        }
    }
    Ok(())
}

// A draw by three weights, with a room and bits of its own.
fn drawn(alloc: Global, loaded: &Loaded, bits: &[bool]) -> Option<Roll>
    requires { length loaded.now ≡ 3 }
{
    let mut room: [u64; 3] = [0; 3];
    let mut bits = ListBits::new(alloc, bits).ok()?;
    loaded.roll(&mut room, 9, &mut bits).ok()
}

// Each draw in a thread of its own.
fn drawn_in_threads<R: Threads>(
    rt: &R,
    alloc: Global,
    loaded: &Loaded,
) -> (Option<Roll>, Option<Roll>)
    requires { length loaded.now ≡ 3 }
{
    join(
        rt,
        ||
            requires { length loaded.now ≡ 3 }
        { drawn(alloc, loaded, &[true, false]) },
        ||
            requires { length loaded.now ≡ 3 }
        { drawn(alloc, loaded, &[true, true, true, true, false]) },
    )
}

#[test]
fn two_threads_share_a_table(rt: HostRuntime) -> Result<(), Fail> {
    let weights: [u64; 3] = [3, 2, 1];
    assert!(rt; are_weights(&weights));
    let loaded = Loaded::new(rt.alloc(), &weights, 3)?;
    let (first, second) = drawn_in_threads(&rt, rt.alloc(), &loaded);
    assert_eq!(rt; first, Some(Roll::Label(1, 2)));
    assert_eq!(rt; second, Some(Roll::Label(2, 5)));
    Ok(())
}

#[test]
fn tells_weights(rt: HostRuntime) {
    assert!(rt; are_weights(&[0, 1, 1]));
    assert!(rt; are_weights(&[1 << 61, 1 << 61]));
    assert!(rt; !are_weights(&[]));
    assert!(rt; !are_weights(&[5]));
    assert!(rt; !are_weights(&[0, 5]));
    assert!(rt; !are_weights(&[0, 0]));
    assert!(rt; !are_weights(&[1 << 61, 1 << 61, 1]));
}

// The numerator and the denominator.
fn parts(weight: Frac) -> (u128, u128) {
    (weight.num(), weight.den())
}

// Within 5 flips 16, 10 and 5 of the 32 strings give a label, and rolls make 62 flips.
#[test]
fn labels_share_the_strings(rt: HostRuntime) -> Result<(), Fail> {
    let weights: [u64; 3] = [3, 2, 1];
    assert!(rt; are_weights(&weights));
    match weigh_labels(rt.alloc(), &weights, 5)? {
        None => assert!(rt; false),
        Some(table) => {
            assert_eq!(rt; table.labels.len(), 3);
            assert_eq!(rt; parts(table.labels[0]), (1, 2));
            assert_eq!(rt; parts(table.labels[1]), (5, 16));
            assert_eq!(rt; parts(table.labels[2]), (5, 32));
            assert_eq!(rt; parts(table.left), (1, 32));
            assert_eq!(rt; parts(table.flips), (31, 16));
        }
    }
    Ok(())
}

// Whether the shares of three weights fit within so many flips.
fn fits(alloc: Global, flips: u64) -> Result<bool, AllocError> {
    let weights: [u64; 3] = [3, 2, 1];
    Ok(are_weights(&weights) && weigh_labels(alloc, &weights, flips)?.is_some())
}

#[test]
fn shares_fit_within_127_flips(rt: HostRuntime) -> Result<(), Fail> {
    assert!(rt; fits(rt.alloc(), 127)?);
    assert!(rt; !fits(rt.alloc(), 128)?);
    Ok(())
}

// Words, and the weights that they list; none where the list is empty.
const WORDS: &[(&str, &[u64])] = &[
    ("3,2,1", &[3, 2, 1]),
    ("0,01,1", &[0, 1, 1]),
    (
        "2305843009213693952,2305843009213693952",
        &[1 << 61, 1 << 61],
    ),
    ("4611686018427387904,0", &[]),
    ("2305843009213693952,2305843009213693953", &[]),
    ("", &[]),
    ("3", &[]),
    ("3,", &[]),
    (",3", &[]),
    ("3,,3", &[]),
    ("3;3", &[]),
    ("3,+3", &[]),
    ("0,0", &[]),
    ("000000000000000000001,1", &[]),
    ("00000000000000000001,1", &[1, 1]),
];

#[test]
fn reads_the_weights_of_a_word(rt: HostRuntime) -> Result<(), Fail> {
    for (word, want) in WORDS {
        match weights_in(rt.alloc(), word)? {
            None => assert_eq!(rt; want.len(), 0, "{word}"),
            Some(weights) => assert_eq!(rt; weights.as_slice(), *want, "{word}"),
        }
    }
    Ok(())
}
