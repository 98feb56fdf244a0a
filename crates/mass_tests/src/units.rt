// The tests of `numbers`: powers of 1/3 and 1/2, rounded both ways.

use numbers::{ALL, over_down, over_up, part_down, power_down, power_up, share_down, share_up};

// 2^120 / 3, rounded down
const THIRD: u128 = 443_075_998_594_971_957_634_602_353_426_781_525;

// 2^120 / 9, rounded down
const NINTH: u128 = 147_691_999_531_657_319_211_534_117_808_927_175;

#[test]
fn a_third_is_rounded_both_ways(rt: HostRuntime) {
    assert!(rt; part_down(ALL, 1, 3) == THIRD);
    assert!(rt; over_down(1, 3) == THIRD);
    assert!(rt; over_up(1, 3) == THIRD + 1);
}

#[test]
fn a_share_is_rounded_both_ways(rt: HostRuntime) {
    assert!(rt; share_down(THIRD, 3) == 0);
    assert!(rt; share_up(THIRD, 3) == 1);
    assert!(rt; share_down(THIRD, ALL) == THIRD);
    assert!(rt; share_up(THIRD, ALL) == THIRD);
}

#[test]
fn powers_end_where_nothing_changes(rt: HostRuntime) {
    assert!(rt; power_down(ALL / 2, 3) == ALL / 8);
    assert!(rt; power_down(ALL / 2, 200) == 0);
    assert!(rt; power_up(ALL / 2, 200) == 1);
    assert!(rt; power_up(0, 1) == 0);
}
