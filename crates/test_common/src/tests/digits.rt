use cv_order::{compare_digits, compare_numbers};
use std::cmp::Ordering;

#[test]
fn runs_of_digits_compare_as_numbers(rt: HostRuntime) {
    for (a, b, want) in [
        ("9", "10", Ordering::Less),
        ("007", "7", Ordering::Equal),
        ("", "000", Ordering::Equal),
        ("4294967296", "1", Ordering::Greater),
        (
            "18446744073709551616",
            "18446744073709551615",
            Ordering::Greater,
        ),
    ] {
        assert_eq!(rt;
            compare_digits(a.as_bytes(), b.as_bytes()),
            want,
            "{a} and {b}"
        );
    }
}

#[test]
fn the_rests_come_after_the_digits(rt: HostRuntime) {
    let found = compare_numbers(b"010-a", b"9+b");
    let rests = (found.left, found.right);
    let want = (b"-a".as_slice(), b"+b".as_slice());
    assert_eq!(rt; (found.ordering, rests), (Ordering::Greater, want));
}
