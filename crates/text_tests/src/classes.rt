// Classes of the numbers of a draw.

use gcl_core::draws::common_class;

#[test]
fn classes_of_a_die_and_of_two_thirds(rt: HostRuntime) {
    let thirds: &[u64] = &[2, 3];
    let six: &[u64] = &[1, 2, 3, 4, 5, 6];
    let table = [
        (thirds, 0, 2, Some(Some(0))),
        (thirds, 2, 1, Some(Some(1))),
        (thirds, 2, 2, None),
        (thirds, 3, 1, Some(None)),
        (six, 5, 1, Some(Some(5))),
        (six, 4, 2, None),
        (six, 6, 2, Some(None)),
    ];
    for (ends, first, count, want) in table {
        assert_eq!(rt; common_class(ends, first, count), want);
    }
}
