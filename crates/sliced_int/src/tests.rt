// What the comparisons answer, on numbers written out by hand.
use super::{SlicedInt, compare_bytes};
use std::cmp::Ordering;

// The number of each is beside it. A length above 5 means zero bytes behind the five.
#[test]
fn any_two_lengths(rt: HostRuntime) {
    let rows = [
        // 258 and 258
        ([1, 2, 0, 0, 0], 2, [0, 1, 2, 0, 0], 3, Ordering::Equal),
        // 1 and 2
        ([1, 0, 0, 0, 0], 1, [0, 2, 0, 0, 0], 2, Ordering::Less),
        // 256 and 255
        ([1, 0, 0, 0, 0], 2, [255, 0, 0, 0, 0], 1, Ordering::Greater),
        // 0 and 0
        ([9, 9, 9, 9, 9], 0, [0, 0, 0, 0, 0], 4, Ordering::Equal),
        // 1 and 1: bytes past the length are none of the number's
        ([1, 7, 7, 7, 7], 1, [1, 0, 0, 0, 0], 1, Ordering::Equal),
        // 3 and 4, of five bytes
        ([0, 0, 0, 0, 3], 5, [0, 0, 0, 0, 4], 5, Ordering::Less),
        // 256^5 and 256^5 - 1
        ([1, 0, 0, 0, 0], 6, [255; 5], 5, Ordering::Greater),
        // 256^5 and 256^5
        ([0, 0, 0, 0, 1], 10, [1, 0, 0, 0, 0], 6, Ordering::Equal),
        // 256^6 and 256^6 - 256
        ([0, 0, 0, 0, 1], 11, [255; 5], 6, Ordering::Greater),
        // 0 and 0
        ([0; 5], usize::MAX, [0; 5], 0, Ordering::Equal),
        // 2 and 3, with as many zeros behind each
        (
            [2, 0, 0, 0, 0],
            usize::MAX,
            [3, 0, 0, 0, 0],
            usize::MAX,
            Ordering::Less,
        ),
        // a great power of 256, and 256^5 - 1
        ([0, 0, 0, 0, 1], usize::MAX, [255; 5], 5, Ordering::Greater),
    ];
    for (mine, long, theirs, len, want) in rows {
        let x = SlicedInt {
            bytes: mine,
            len: long,
        };
        let y = SlicedInt { bytes: theirs, len };
        assert_eq!(rt; x.compare(y), want, "{x:?}, {y:?}");
        assert_eq!(rt; y.compare(x), want.reverse(), "{y:?}, {x:?}");
    }
}

#[test]
fn one_length(rt: HostRuntime) {
    let three = SlicedInt::from_int(3, 2);
    let four = SlicedInt::from_int(4, 2);
    assert_eq!(rt; three.compare_same_len(four), Ordering::Less);
    assert_eq!(rt; four.compare_same_len(three), Ordering::Greater);
    assert_eq!(rt; four.compare_same_len(four), Ordering::Equal);
}

#[test]
fn any_bytes(rt: HostRuntime) {
    assert_eq!(rt;
        compare_bytes([1, 0, 0, 0, 0, 0, 0], [0, 255, 255, 255, 255, 255, 255]),
        Ordering::Greater
    );
    assert_eq!(rt;
        compare_bytes([0, 1, 0, 0, 0, 0, 0], [0, 1, 0, 0, 0, 0, 1]),
        Ordering::Less
    );
    assert_eq!(rt; compare_bytes([7, 8], [7, 8]), Ordering::Equal);
    assert_eq!(rt; compare_bytes::<0>([], []), Ordering::Equal);
}
