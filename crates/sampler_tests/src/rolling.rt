// The tests of `dice_roll`: rolls and shares that were worked by hand.

use dice_roll::{LEAST_LABELS, MOST_FLIPS, MOST_LABELS, Roll, roll, share};
use numbers::Frac;
use std::test::Fail;
use zar_io::{Failed, FileBits, Files, ListBits, MemFiles};

// The bits of the bytes d4 and c0.
const HEX_D4: &[bool] = &[true, true, false, true, false, true, false, false];

const HEX_C0: &[bool] = &[true, true, false, false, false, false, false, false];

const ONES: &[bool] = &[true; 62];

#[test]
fn rolls_a_label_or_says_why_not(rt: HostRuntime) -> Result<(), Fail> {
    let table: [(u64, u64, &[bool], Roll); 12] = [
        (6, 1000, HEX_D4, Roll::Label(2, 5)),
        (6, 5, HEX_D4, Roll::Label(2, 5)),
        (6, 4, HEX_D4, Roll::Limit(4)),
        (3, 1000, HEX_C0, Roll::Label(0, 4)),
        (3, 3, HEX_C0, Roll::Limit(3)),
        (3, 1000, &[], Roll::MoreBits(0)),
        (3, 0, &[], Roll::Limit(0)),
        (6, 1000, &[true, false, true], Roll::Label(5, 3)),
        (6, 1000, &[true, true, true, true], Roll::MoreBits(4)),
        (2, 1, &[true], Roll::Label(1, 1)),
        (MOST_LABELS, 62, ONES, Roll::Label(MOST_LABELS - 1, 62)),
        (MOST_LABELS - 1, MOST_FLIPS, ONES, Roll::MoreBits(62)),
    ];
    for (m, flips, bits, want) in table {
        assert!(rt; m >= LEAST_LABELS);
        assert!(rt; m <= MOST_LABELS);
        assert!(rt; flips <= MOST_FLIPS);
        let mut bits = ListBits::new(rt.alloc(), bits)?;
        assert_eq!(rt;
            roll(m, flips, &mut bits),
            Ok(want),
            "{m} labels, {flips} flips"
        );
    }
    Ok(())
}

// The second byte of the file is not read.
#[test]
fn a_failed_read_fails_the_roll(rt: HostRuntime) -> Result<(), Fail> {
    let mut files = MemFiles::new(rt.alloc(), 1, &[2])?;
    files.add("bits", &[0xd4, 0xc0])?;
    files.open("bits")?;
    let mut bits = FileBits::new(&mut files);
    assert_eq!(rt; roll(6, 1000, &mut bits), Ok(Roll::Label(2, 5)));
    assert_eq!(rt; roll(6, 1000, &mut bits), Ok(Roll::Label(4, 3)));
    assert_eq!(rt; roll(6, 1000, &mut bits), Err(Failed));
    Ok(())
}

// The numerator and the denominator.
fn parts(weight: Frac) -> (u128, u128) {
    (weight.num(), weight.den())
}

#[test]
fn labels_share_what_the_limit_leaves(rt: HostRuntime) {
    let table: [(u64, u64, Option<[(u128, u128); 2]>); 6] = [
        (6, 30, Some([(89_478_485, 536_870_912), (1, 268_435_456)])),
        (6, 5, Some([(5, 32), (1, 16)])),
        (6, 2, Some([(0, 1), (1, 1)])),
        (2, 1, Some([(1, 2), (0, 1)])),
        (2, 127, Some([(1, 2), (0, 1)])),
        (6, 128, None),
    ];
    for (m, flips, want) in table {
        assert!(rt; m >= LEAST_LABELS);
        assert!(rt; m <= MOST_LABELS);
        assert!(rt; flips <= MOST_FLIPS);
        let shares = share(m, flips).map(|(each, left)| [parts(each), parts(left)]);
        assert_eq!(rt; shares, want, "{m} labels, {flips} flips");
    }
}
