use cv_debver::{compare, is_version};
use std::cmp::Ordering;

/// Pairs of versions, with what `dpkg --compare-versions` of dpkg 1.21.22 says of them: tildes and absent revisions first, then
/// hyphens, letters before other bytes, epochs, numbers with and without leading zeros, numbers past 32 and 64 bits, and
/// versions as archives have them.
const PAIRS: &str = "\
1.0~rc1 < 1.0
1.0~~ < 1.0~
1.0~~a < 1.0~
1.0~ < 1.0
1.0 < 1.0a
1.0~beta1~svn1245 < 1.0~beta1
1.0~beta1 < 1.0
1~ < 1
1.0~ < 1.0-0
1.0-1~ < 1.0-1
1.0-1~bpo11+1 < 1.0-1
1.0 = 1.0-0
1.0 = 1.0-00
1.0-0 = 1.0-00
1.0 > 1.0-0~
1.0 < 1.0-1
1.0-0 < 1.0-0+b1
1.0-1 < 1.0-1+b1
1.0-1 < 1.0-1.1
1.0-1 < 1.0-1ubuntu1
1.0-1-1 > 1.0-1
1.0-1-1 > 1.0-2
1.0-a > 1.0-1
1.0a < 1.0+
1.0a < 1.0.
1.0a > 1.0-1
1.0A < 1.0a
1.0Z < 1.0a
1.0z < 1.0+
1.0+ < 1.0.
1.0.1 > 1.0+1
1a+ > 1a-1
1.0ab > 1.0a
1.0a < 1.0a1
1a1 < 1ab
0:1 = 1
00:1 = 1
1:0 > 9
1:0 > 99999999999999999999
0:9 < 1:1
2:1 < 10:1
01:1 = 1:1
1:1.0-1 = 1:1.0-1
9 < 10
1.9 < 1.10
1.2.3 < 1.2.12
1.2 < 1.2.0
1.0 = 1.00
1.0 > 1
001 = 1
1.001 = 1.1
1.0010 = 1.10
1.a00 = 1.a
1.a0 = 1.a
1a0b < 1ab
1.0 = 1.
1.99999999999999999999 < 1.100000000000000000000
1.18446744073709551616 > 1.0
1.18446744073709551616 > 1.18446744073709551615
1.4294967296 > 1.0
1.9223372036854775808 > 1.9223372036854775807
1.000000000000000000000000000000000001 < 1.2
20240101 > 20231231
2.30-21 > 2.30-3
3.0.11-1~deb12u2 < 3.0.12-1
1:1.2.13.dfsg-1 < 1:1.3
7.6p2-4 > 7.6-0
1.0.3-3 > 1.0-1
1.3 > 1.2.2-2
1.3 > 1.2.2
0-pre = 0-pre
0-pree > 0-pre
1.1.6r2-2 > 1.1.6r-1
2.6b2-1 > 2.6b-2
98.1-pre2-b6-2 > 98.1p5-1
0.4a6-2 > 0.4-1
1:3.0.5-2 = 1:3.0.5-2
1:3.0.5-2 < 1:3.0.5.1
10.3 < 1:0.4
1.18.36-0.17.35-18 > 1.18.36-19
1:1.25-4 < 1:1.25-8
0:1.18.36 = 1.18.36
9:1.18.36-0.17.35-18 < 10:0.17.20-3
0foo > 0foo~
";

#[test]
fn versions_compare_as_dpkg_compares_them(rt: HostRuntime) {
    let mut compared = 0usize;
    for line in PAIRS.lines() {
        let mut words = line.split(' ');
        let (Some(a), Some(sign), Some(b)) = (words.next(), words.next(), words.next()) else {
            break;
        };
        let want = match sign {
            "<" => Ordering::Less,
            "=" => Ordering::Equal,
            _ => Ordering::Greater,
        };
        assert_eq!(rt; compare(a.as_bytes(), b.as_bytes()), want, "{line}");
        compared = compared.saturating_add(1);
    }
    assert_eq!(rt; compared, 84);
}

/// Texts that `dpkg --validate-version` takes.
const VERSIONS: [&str; 10] = [
    "0",
    "1",
    "1.0-1",
    "1:1.2.13.dfsg-1",
    "2.0~rc1-1~bpo12+1",
    "1.0-1-1",
    "1.0+b1",
    "007:1",
    "4.4.1-1ubuntu0.1",
    "1.0-+",
];

/// Texts that are not versions here. Most of them it refuses as well, but not a colon in the upstream version or a sign
/// before the epoch.
const OTHERS: [&str; 20] = [
    "",
    ":",
    ":1",
    "1:",
    "1:-1",
    "-1",
    "-",
    "1-",
    "1.0-",
    "1.0--",
    "1.0-1-",
    "a:1",
    "1a:1",
    "1.0_1",
    "1.0-1_1",
    "1.0-1:1",
    "1.0/1",
    "1.0\u{e9}",
    "1:1:1",
    "+1:1",
];

#[test]
fn versions_are_accepted_and_other_texts_are_not(rt: HostRuntime) {
    for text in VERSIONS {
        assert!(rt; is_version(text.as_bytes()), "{text}");
    }
    for text in OTHERS {
        assert!(rt; !is_version(text.as_bytes()), "{text}");
    }
}
