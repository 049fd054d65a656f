use test_commands::Status;

/// The line of a scan that finds this.
macro_rules! good {
    ($findings:literal) => {
        concat!(
            "{\"findings\":[",
            $findings,
            "],\"image\":\"<1>\",\"reply\":\"good\"}\n"
        )
    };
}

/// The line that says why a scan is refused.
macro_rules! refused {
    ($line:literal) => {
        concat!($line, "\n")
    };
}

/// Images that are scanned: their layers, the lines of records, and the line with the findings. `<X-1>` is a record of openssl.
pub static GOOD: [(&str, &str, &str); 16] = [
    ("a", "", good!("")),
    ("a", "<X-1>", good!("<openssl-found>")),
    // empty lines, and a record of another package
    ("a", "\n<module-x>\n\n\n<X-1>\n", good!("<openssl-found>")),
    // a record that was withdrawn
    (
        "a",
        r#"{"withdrawn":"2024-02-01T00:00:00Z","id":"X-1",<openssl>}"#,
        good!(""),
    ),
    // the fixed version
    ("3", "<X-1>", good!("")),
    (
        "7",
        r#"{"id":"X-1","modified":"2024-01-01T00:00:00Z","affected":[{"package":{"ecosystem":"Debian:12","name":"openssl"},"ranges":[{"type":"ECOSYSTEM","events":[{"introduced":"0"},{"fixed":"11"}]}]}]}"#,
        good!(
            r#"{"advisory":"X-1","arch":"amd64","ecosystem":"Debian:12","feed":"scan","fixed":"11","kind":"deb","name":"libssl3","path":"var/lib/dpkg/status","source":"openssl","source_version":"9","version":"9"}"#
        ),
    ),
    // Alpine
    (
        "2",
        "<X-1>\n<alpine-openssl>",
        good!(
            r#"{"advisory":"A-1","arch":"x86_64","ecosystem":"Alpine:v3.18","feed":"scan","fixed":"3.1.2-r0","kind":"apk","name":"libcrypto3","path":"lib/apk/db/installed","source":"openssl","source_version":"3.1.1-r1","version":"3.1.1-r1"}"#
        ),
    ),
    // a whiteout
    ("ab", "<X-1>", good!("")),
    // another status file
    (
        "ac",
        "<X-1>\n<debian-zlib>",
        good!(
            r#"{"advisory":"Z-1","arch":"amd64","ecosystem":"Debian:12","feed":"scan","fixed":"1:1.3","kind":"deb","name":"zlib1g","path":"var/lib/dpkg/status","source":"zlib","source_version":"1:1.2.13.dfsg-1","version":"1:1.2.13.dfsg-1"}"#
        ),
    ),
    // an opaque mark
    ("de", "<module-x>\n<module-y>", good!("<module-y-found>")),
    // a file in the place of a folder
    ("d0", "<module-x>\n<module-y>", good!("<module-y-found>")),
    // a folder in the place of a file
    ("a4", "<X-1>", good!("")),
    // an opaque mark at the top
    ("d6", "<module-x>\n<module-y>", good!("")),
    // a layer that stands twice
    ("aba", "<X-1>", good!("<openssl-found>")),
    // a malformed file that is hidden
    ("fb", "<X-1>", good!("")),
    // a Python package, which records have by its normalized name, and for which a semantic range does not count
    (
        "8",
        "<python-semantic>\n<python-foo-bar>\n<python-written>",
        good!("<python-found>"),
    ),
];

/// Images and inputs that are refused: the layers, the records, and the line that says why.
pub static REFUSED: [(&str, &str, &str); 10] = [
    // a malformed file
    (
        "f",
        "<X-1>",
        refused!(
            r#"{"bad":{"cause":"bad_file","line":3,"path":"var/lib/dpkg/status","what":"no_colon"},"image":"<1>","reply":"bad_image"}"#
        ),
    ),
    // a tree that is not good
    (
        "5",
        "",
        refused!(
            r#"{"bad":{"cause":"bad_tree","entry":0,"layer":0,"what":"bad_mark"},"image":"<1>","reply":"bad_image"}"#
        ),
    ),
    // which comes before a malformed file
    (
        "f5",
        "<X-1>",
        refused!(
            r#"{"bad":{"cause":"bad_tree","entry":0,"layer":1,"what":"bad_mark"},"image":"<1>","reply":"bad_image"}"#
        ),
    ),
    // and a layer that is missing before that
    (
        "f59",
        "<X-1>",
        refused!(r#"{"bad":{"cause":"no_layer","layer":2},"image":"<1>","reply":"bad_image"}"#),
    ),
    (
        "9",
        "",
        refused!(r#"{"bad":{"cause":"no_layer","layer":0},"image":"<1>","reply":"bad_image"}"#),
    ),
    // no layers
    (
        "",
        "<X-1>",
        refused!(r#"{"line":1,"refused":"bad_request","what":"no_layers"}"#),
    ),
    // a record that does not say when it was modified
    (
        "a",
        r#"{"id":"A","modified":1}"#,
        refused!(r#"{"index":0,"line":2,"refused":"bad_advisory","what":"no_modified"}"#),
    ),
    // a record twice
    (
        "a",
        "<X-1>\n<X-1>",
        refused!(r#"{"first":0,"line":3,"refused":"duplicate_id","second":1}"#),
    ),
    // and with empty lines, which count as lines
    (
        "a",
        "\n<X-1>\n\n<X-1>",
        refused!(r#"{"first":0,"line":5,"refused":"duplicate_id","second":1}"#),
    ),
    // a line that is not JSON
    (
        "9",
        "<X-1>\n{",
        refused!(r#"{"line":3,"refused":"bad_json"}"#),
    ),
];

/// Inputs of which some layers have a stated seal, how the scan ends, and its line. `<a-seal>` is the seal of the layer `<a>`.
pub static SEALED: [(&str, Status, &str); 10] = [
    // another seal than the stated one
    (
        r#"{"hash":"<1>","layers":[{"hash":"<a>","seal":"<0>"}]}"#,
        Status::Refused,
        refused!(
            r#"{"bad":{"cause":"bad_seal","found":"<a-seal>","layer":0,"stated":"<0>"},"image":"<1>","reply":"bad_image"}"#
        ),
    ),
    // the stated one
    (
        r#"{"hash":"<1>","layers":[{"hash":"<a>","seal":"<a-seal>"}]}
<X-1>"#,
        Status::Done,
        good!("<openssl-found>"),
    ),
    // of one layer alone
    (
        r#"{"hash":"<1>","layers":[{"hash":"<d>"},{"hash":"<a>","seal":"<a-seal>"},{"hash":"<0>"}]}
<X-1>"#,
        Status::Done,
        good!("<openssl-found>"),
    ),
    // one layer with two seals
    (
        r#"{"hash":"<1>","layers":[{"hash":"<a>","seal":"<a-seal>"},{"hash":"<a>","seal":"<1>"}]}"#,
        Status::Refused,
        refused!(
            r#"{"bad":{"cause":"bad_seal","found":"<a-seal>","layer":1,"stated":"<1>"},"image":"<1>","reply":"bad_image"}"#
        ),
    ),
    // a layer that is missing comes before another seal
    (
        r#"{"hash":"<1>","layers":[{"hash":"<a>","seal":"<0>"},{"hash":"<9>"}]}"#,
        Status::Refused,
        refused!(r#"{"bad":{"cause":"no_layer","layer":1},"image":"<1>","reply":"bad_image"}"#),
    ),
    // and a tree that is not good
    (
        r#"{"hash":"<1>","layers":[{"hash":"<a>","seal":"<0>"},{"hash":"<5>","seal":"<0>"}]}"#,
        Status::Refused,
        refused!(
            r#"{"bad":{"cause":"bad_tree","entry":0,"layer":1,"what":"bad_mark"},"image":"<1>","reply":"bad_image"}"#
        ),
    ),
    // another seal comes before a malformed file
    (
        r#"{"hash":"<1>","layers":[{"hash":"<f>"},{"hash":"<a>","seal":"<0>"}]}"#,
        Status::Refused,
        refused!(
            r#"{"bad":{"cause":"bad_seal","found":"<a-seal>","layer":1,"stated":"<0>"},"image":"<1>","reply":"bad_image"}"#
        ),
    ),
    // a seal that is not a digest
    (
        r#"{"hash":"<1>","layers":[{"hash":"<a>","seal":"x"}]}"#,
        Status::Refused,
        refused!(r#"{"index":0,"line":1,"refused":"bad_request","what":"bad_seal"}"#),
    ),
    (
        r#"{"hash":"<1>","layers":[{"hash":"<a>"},{"hash":"<a>","seal":null},{}]}"#,
        Status::Refused,
        refused!(r#"{"index":1,"line":1,"refused":"bad_request","what":"bad_seal"}"#),
    ),
    // of a layer without a digest
    (
        r#"{"hash":"<1>","layers":[{"seal":"x"}]}"#,
        Status::Refused,
        refused!(r#"{"index":0,"line":1,"refused":"bad_request","what":"bad_layer"}"#),
    ),
];
