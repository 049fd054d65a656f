use cv_apkver::{compare, is_version};
use std::cmp::Ordering;

// each is less than all after it
const SUFFIXES: [&str; 10] = [
    "3_alpha", "3_beta", "3_pre", "3_rc", "3", "3_cvs", "3_svn", "3_git", "3_hg", "3_p",
];

// the same by every part of a version
const ASCENDING: [&str; 32] = [
    "0",
    "0-r1",
    "0.0",
    "0.9",
    "0.10",
    "0.18446744073709551615",
    "0.18446744073709551616",
    "0.18446744073709551617",
    "0.99999999999999999999",
    "0.100000000000000000000",
    "1_alpha_alpha",
    "1_alpha",
    "1_alpha-r1",
    "1_alpha_p",
    "1_alpha1_beta",
    "1_alpha1",
    "1_alpha9",
    "1_alpha10",
    "1_alpha18446744073709551616",
    "1_beta",
    "1",
    "1-r1",
    "1-r2",
    "1-r10",
    "1-r18446744073709551616",
    "1_p",
    "1_p1-r3",
    "1a_pre2",
    "1a",
    "1z",
    "1.0_alpha",
    "1.0",
];

// a release candidate, the release, a patch of it, its letter, one more number, and a build of that
const RELEASES: [&str; 6] = ["1.2_rc1", "1.2", "1.2_p1", "1.2a", "1.2.0", "1.2.0-r1"];

const EQUAL: [(&str, &str); 12] = [
    ("1.2", "1.2"),
    ("01.2", "1.2"),
    ("1.02", "1.2"),
    ("1.000", "1.0"),
    ("1.00018446744073709551616", "1.18446744073709551616"),
    ("1.2_rc", "1.2_rc0"),
    ("1.2_rc01", "1.2_rc1"),
    ("1.2_rc_p00", "1.2_rc_p"),
    ("1.2-r0", "1.2"),
    ("1.2-r010", "1.2-r10"),
    ("1.2b_git-r00", "1.2b_git"),
    ("007.00_alpha00-r00", "7.0_alpha"),
];

#[test]
fn versions_compare_by_numbers_letter_suffixes_and_build(rt: HostRuntime) {
    for versions in [
        SUFFIXES.as_slice(),
        RELEASES.as_slice(),
        ASCENDING.as_slice(),
    ] {
        for (i, a) in versions.iter().enumerate() {
            for (j, b) in versions.iter().enumerate() {
                assert_eq!(rt;
                    compare(a.as_bytes(), b.as_bytes()),
                    i.cmp(&j),
                    "{a} and {b}"
                );
            }
        }
    }
    for (a, b) in EQUAL {
        let ways = (
            compare(a.as_bytes(), b.as_bytes()),
            compare(b.as_bytes(), a.as_bytes()),
        );
        assert_eq!(rt; ways, (Ordering::Equal, Ordering::Equal), "{a} and {b}");
    }
}

#[test]
fn versions_are_accepted_and_other_texts_are_not(rt: HostRuntime) {
    for version in [
        "0",
        "1.2",
        "1.2.0-r1",
        "3.1.1-r1",
        "1.2a",
        "1.2_p",
        "2.0.1z_alpha_beta1_pre2_rc3_cvs4_svn5_git20240101_hg7_p8-r12",
        "00.00-r00",
        "340282366920938463463374607431768211456.1",
    ] {
        assert!(rt; is_version(version.as_bytes()), "{version}");
    }
    for text in [
        "",
        "a",
        ".1",
        "1.",
        "1..2",
        "1.2ab",
        "1.2A",
        "1a.2",
        "1a1",
        "1.2~ab",
        "1.2_",
        "1.2_foo",
        "1.2_alph",
        "1.2_alphab",
        "1.2_p1a",
        "1.2_p1.2",
        "1.2-",
        "1.2-1",
        "1.2-r",
        "1.2-r1a",
        "1.2-r1-r2",
        "1.2-r1_p1",
        "1.2 ",
        "1:2",
    ] {
        assert!(rt; !is_version(text.as_bytes()), "{text}");
    }
}
