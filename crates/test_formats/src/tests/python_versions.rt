use cv_pep440::{compare, is_version};
use std::cmp::Ordering;

/// Pairs of versions, with what `packaging.version` of Debian's python3-packaging 23.0 says of them: the order of all kinds of
/// suffixes first, then zeros and epochs, the list of PEP 440 and of that package's own tests, and each part written otherwise.
const PAIRS: &str = "\
1.0.dev1 < 1.0a1
1.0a1 < 1.0a1.post1
1.0a1.post1 < 1.0rc1
1.0rc1 < 1.0
1.0 < 1.0+abc
1.0+abc < 1.0+5
1.0+5 < 1.0.post1
1.0.post1 < 1!0
1.0 = 1.0.0
1.0-1 = 1.0.post1
v1.0c1 = 1.0RC1
1.0 = 1
1.0 = 1.0.0.0.0
1.0.0.1 > 1.0
0 = 0.0
1 = 01
1.2 < 1.10
1.02 = 1.2
1.4294967296 > 1.1
1.18446744073709551616 > 1.18446744073709551615
1!1.0 > 2.0
0!1.0 = 1.0
10!1 > 9!1
V1.0 = 1.0
1.0.dev456 < 1.0a1
1.0a1 < 1.0a2.dev456
1.0a2.dev456 < 1.0a12.dev456
1.0a12.dev456 < 1.0a12
1.0a12 < 1.0b1.dev456
1.0b1.dev456 < 1.0b2
1.0b2 < 1.0b2.post345.dev456
1.0b2.post345.dev456 < 1.0b2.post345
1.0b2.post345 < 1.0c1.dev456
1.0c1.dev456 < 1.0c1
1.0c1 < 1.0rc2
1.0rc2 < 1.0c3
1.0c3 < 1.0
1.0 < 1.0.post456.dev34
1.0.post456.dev34 < 1.0.post456
1.0.post456 < 1.1.dev1
1.2+123abc < 1.2+123abc456
1.2+123abc456 < 1.2+abc
1.2+abc < 1.2+abc123
1.2+abc123 < 1.2+abc123def
1.2+abc123def < 1.2+1234.abc
1.2+1234.abc < 1.2+123456
1.2.r32+123456 < 1.2.rev33+123456
1.0alpha1 = 1.0a1
1.0ALPHA = 1.0a0
1.0beta2 = 1.0b2
1.0-beta_2 = 1.0b2
1.0preview3 = 1.0rc3
1.0pre3 = 1.0c3
1.0.a.1 = 1.0a1
1.0a-1 = 1.0a1
1.0a1-1 = 1.0a1.post1
1.0a = 1.0a0
1.0a.dev1 = 1.0a0.dev1
1.0adev1 = 1.0a0.dev1
1.0r1 = 1.0.post1
1.0rev1 = 1.0.post1
1.0-r.1 = 1.0.post1
1.0.post = 1.0.post0
1.0post > 1.0
1.0-0 > 1.0
1.0-00 = 1.0-0
1.0.dev = 1.0.dev0
1.0dev = 1.0.dev0
1.0-dev_3 = 1.0.dev3
1.0arev2dev3 = 1.0a0.post2.dev3
1.0b1.dev1 > 1.0a9
1.0.dev1 < 1.0.post0.dev1
1.0.post0.dev1 > 1.0
1.0+abc = 1.0+ABC
1.0+a.1 = 1.0+a-1
1.0+a_01 = 1.0+a.1
1.0+1 < 1.0+1.0
1.0+a < 1.0+a.a
1.0+0a < 1.0+a
1.0+007 = 1.0+7
1.0+z < 1.0+0
1.0+18446744073709551616 > 1.0+1
1.0a1+x > 1.0a1
1.0.post1+1 > 1.0.post1.dev1
2024.1.1 > 2023.12.31
2.0.1 < 2.0.1.post20240101
1.0rc1.post1.dev2+local.7 < 1.0rc1.post1.dev2+local.7.0
";

#[test]
fn versions_compare_as_packaging_compares_them(rt: HostRuntime) {
    let mut compared = 0usize;
    for line in PAIRS.lines() {
        let mut words = line.split(' ');
        let (Some(a), Some(sign), Some(b)) = (words.next(), words.next(), words.next()) else {
            break;
        };
        let (want, reversed) = match sign {
            "<" => (Ordering::Less, Ordering::Greater),
            "=" => (Ordering::Equal, Ordering::Equal),
            _ => (Ordering::Greater, Ordering::Less),
        };
        assert!(rt;
            is_version(a.as_bytes()) && is_version(b.as_bytes()),
            "{line}"
        );
        assert_eq!(rt; compare(a.as_bytes(), b.as_bytes()), want, "{line}");
        assert_eq!(rt;
            compare(b.as_bytes(), a.as_bytes()),
            reversed,
            "{line}, the other way round"
        );
        compared = compared.saturating_add(1);
    }
    assert_eq!(rt; compared, 87);
}

/// Texts that `packaging.version` refuses as well.
const OTHERS: [&str; 36] = [
    "",
    "v",
    "!",
    "1!",
    "!1",
    "1!!2",
    "v!1",
    "vv1",
    "1:0",
    "a1",
    "1..2",
    ".1",
    "1.",
    "1.0.x",
    "1.0ab1",
    "1.0aa",
    "1.0foo",
    "1.0a1a2",
    "1.0.post1.post2",
    "1.0-1-1",
    "1.0-",
    "1.0+",
    "1.0++a",
    "1.0+a..b",
    "1.0+a.",
    "1.0+.a",
    "1.0+a+b",
    "1.0+a!b",
    "1.0a. 1",
    "1.0.dev1.post1",
    "1.0.post1a1",
    "1.0.dev1a1",
    "1.0.devel",
    "1.0 1",
    "1.0.0-1.0",
    "1.0--1",
];

/// Texts that `packaging.version` reads, and that are not versions here: blanks at the ends, a separator after a word that no
/// digit follows, and bytes outside ASCII.
const ELSEWHERE: [&str; 13] = [
    " 1.0",
    "1.0 ",
    "1.0\n",
    "1.0a.",
    "1.0a-",
    "1.0.post.",
    "1.0.dev_",
    "1.0a..dev1",
    "1.0a-.post1",
    "1.0+\u{17f}",
    "1.0po\u{17f}t1",
    "1.0a_-1",
    "1.0-post-.dev1",
];

#[test]
fn other_texts_are_not_versions(rt: HostRuntime) {
    for text in OTHERS {
        assert!(rt; !is_version(text.as_bytes()), "{text}");
    }
    for text in ELSEWHERE {
        assert!(rt; !is_version(text.as_bytes()), "{text}");
    }
}
