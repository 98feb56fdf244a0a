// The tests of `stream_rolls`: rolls on a stream whose bits are published.

use std::test::Fail;
use stream_rolls::{FLIPS, rolls_into};
use stream_runs::{MORE_BITS, StreamsFrom, VALUE};
use weighted_roll::are_weights;

// Of the weights 3, 2 and 1 the label 1 comes on 10. The stream 0 of the seed 0 begins with 1010 (RFC 8439, appendix A.1, test
// vector 1).
#[test]
fn rolls_on_a_stream(rt: HostRuntime) -> Result<(), Fail> {
    let weights: [u64; 3] = [3, 2, 1];
    assert!(rt; are_weights(&weights));
    let mut labels = [9u64; 1];
    let mut ends = [9u8; 1];
    for (flips, budget, label, end) in [(9, 9, 1, VALUE), (1, 9, 0, FLIPS), (9, 1, 0, MORE_BITS)] {
        assert!(rt; flips <= 9 && budget <= 9);
        let streams = StreamsFrom {
            seed: 0,
            first: 0,
            budget,
        };
        rolls_into(rt.alloc(), &weights, flips, streams, &mut labels, &mut ends)?;
        assert_eq!(rt; labels, [label]);
        assert_eq!(rt; ends, [end]);
    }
    Ok(())
}
