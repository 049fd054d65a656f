use test_commands::{Failure, Outside, Status, UNREAD};

/// Inputs of `sbom`: how each ends, and what it prints.
pub static SBOMS: [(&str, Status, &str); 12] = [
    (
        r#"{"hash":"<1>","layers":[{"hash":"<a>"}]}"#,
        Status::Done,
        "<libssl3-list>\n",
    ),
    // empty lines
    (
        "{\"hash\":\"<1>\",\"layers\":[{\"hash\":\"<a>\"}]}\n\n\r\n\n",
        Status::Done,
        "<libssl3-list>\n",
    ),
    // no packages
    (
        r#"{"hash":"<1>","layers":[{"hash":"<a>"},{"hash":"<b>"}]}"#,
        Status::Done,
        r#"{"bomFormat":"CycloneDX","components":[],"metadata":{"component":{"name":"<1>","type":"container"}},"specVersion":"1.5","version":1}
"#,
    ),
    // no line
    (
        "",
        Status::Refused,
        "{\"line\":1,\"refused\":\"no_manifest\"}\n",
    ),
    // not JSON, and not a manifest
    (
        "\n",
        Status::Refused,
        "{\"line\":1,\"refused\":\"bad_json\"}\n",
    ),
    (
        "[]",
        Status::Refused,
        "{\"line\":1,\"refused\":\"bad_request\",\"what\":\"bad_manifest\"}\n",
    ),
    // a record, and a line that is not JSON; they are refused before the image is read
    (
        "{\"hash\":\"<1>\",\"layers\":[{\"hash\":\"<a>\"}]}\n<X-1>",
        Status::Refused,
        "{\"line\":2,\"refused\":\"extra_line\"}\n",
    ),
    (
        "{\"hash\":\"<1>\",\"layers\":[{\"hash\":\"<9>\"}]}\n\n\n{\n{",
        Status::Refused,
        "{\"line\":4,\"refused\":\"extra_line\"}\n",
    ),
    // a bad image
    (
        r#"{"hash":"<1>","layers":[{"hash":"<f>"}]}"#,
        Status::Refused,
        r#"{"bad":{"cause":"bad_file","line":3,"path":"var/lib/dpkg/status","what":"no_colon"},"image":"<1>","reply":"bad_image"}
"#,
    ),
    (
        r#"{"hash":"<1>","layers":[{"hash":"<9>"}]}"#,
        Status::Refused,
        r#"{"bad":{"cause":"no_layer","layer":0},"image":"<1>","reply":"bad_image"}
"#,
    ),
    (
        r#"{"hash":"<1>","layers":[{"hash":"<a>","seal":"<0>"}]}"#,
        Status::Refused,
        r#"{"bad":{"cause":"bad_seal","found":"<a-seal>","layer":0,"stated":"<0>"},"image":"<1>","reply":"bad_image"}
"#,
    ),
    // packages without an architecture
    (
        r#"{"hash":"<1>","layers":[{"hash":"<d>"},{"hash":"<e>"}]}"#,
        Status::Done,
        r#"{"bomFormat":"CycloneDX","components":[{"name":"y","properties":[{"name":"cvwatch:arch","value":""},{"name":"cvwatch:ecosystem","value":"npm"},{"name":"cvwatch:kind","value":"npm"},{"name":"cvwatch:path","value":"srv/node_modules/y/package.json"},{"name":"cvwatch:source","value":"y"},{"name":"cvwatch:source_version","value":"1.0.0"}],"type":"library","version":"1.0.0"}],"metadata":{"component":{"name":"<1>","type":"container"}},"specVersion":"1.5","version":1}
"#,
    ),
];

/// The line of a list of components that is scanned.
macro_rules! good {
    ($findings:literal, $image:literal, $skipped:literal) => {
        concat!(
            "{\"findings\":[",
            $findings,
            "],\"image\":",
            $image,
            ",\"reply\":\"good\",\"skipped\":",
            $skipped,
            "}\n"
        )
    };
}

/// Inputs of `scan-list`: how each ends, and what it prints.
pub static LISTS: [(&str, Status, &str); 15] = [
    (
        "<libssl3-list>\n<X-1>",
        Status::Done,
        good!("<openssl-found>", "\"<1>\"", "0"),
    ),
    // a list of another tool
    (
        "{\"bomFormat\":\"CycloneDX\",\"components\":[{\"name\":\"x\",\"type\":\"library\",\"version\":\"1\"}],\"specVersion\":\"1.4\",\"version\":1}\n<X-1>",
        Status::Done,
        good!("", "null", "1"),
    ),
    // no components
    (
        r#"{"bomFormat":"CycloneDX"}"#,
        Status::Done,
        good!("", "null", "0"),
    ),
    // a component that is not an object, and one twice
    (
        "{\"bomFormat\":\"CycloneDX\",\"components\":[7,<libssl3-component>,<libssl3-component>]}\n\n<X-1>",
        Status::Done,
        good!("<openssl-found>", "null", "1"),
    ),
    // an image that is not a digest
    (
        "{\"bomFormat\":\"CycloneDX\",\"components\":[<libssl3-component>],\"metadata\":{\"component\":{\"name\":\"debian:12\"}}}\n<X-1>",
        Status::Done,
        good!("<openssl-found>", "null", "0"),
    ),
    // no line
    (
        "",
        Status::Refused,
        "{\"line\":1,\"refused\":\"no_list\"}\n",
    ),
    // not JSON
    (
        "{",
        Status::Refused,
        "{\"line\":1,\"refused\":\"bad_json\"}\n",
    ),
    (
        "\n<libssl3-list>",
        Status::Refused,
        "{\"line\":1,\"refused\":\"bad_json\"}\n",
    ),
    // not a list of components
    (
        "[]",
        Status::Refused,
        "{\"line\":1,\"refused\":\"bad_list\",\"what\":\"not_object\"}\n",
    ),
    (
        "{}",
        Status::Refused,
        "{\"line\":1,\"refused\":\"bad_list\",\"what\":\"bad_format\"}\n",
    ),
    (
        r#"{"bomFormat":"SPDX","components":[]}"#,
        Status::Refused,
        "{\"line\":1,\"refused\":\"bad_list\",\"what\":\"bad_format\"}\n",
    ),
    (
        r#"{"bomFormat":"CycloneDX","components":{}}"#,
        Status::Refused,
        "{\"line\":1,\"refused\":\"bad_list\",\"what\":\"bad_components\"}\n",
    ),
    // a manifest
    (
        r#"{"hash":"<1>","layers":[{"hash":"<a>"}]}"#,
        Status::Refused,
        "{\"line\":1,\"refused\":\"bad_list\",\"what\":\"bad_format\"}\n",
    ),
    // records that are refused
    (
        "<libssl3-list>\n<X-1>\n\n{",
        Status::Refused,
        "{\"line\":4,\"refused\":\"bad_json\"}\n",
    ),
    (
        "<libssl3-list>\n<X-1>\n<X-1>",
        Status::Refused,
        "{\"first\":0,\"line\":3,\"refused\":\"duplicate_id\",\"second\":1}\n",
    ),
];

/// Runs of `sbom` in which a call of a stream or of the desk fails.
pub static SBOM_FAILURES: [Failure; 3] = [
    Failure {
        input: r#"{"hash":"<1>","layers":[{"hash":"<a>"},{"hash":"<b>"}]}"#,
        outside: Outside {
            piece: 100,
            reads: &[],
            writes: &[],
            desk: &[1],
        },
        status: Status::DeskFault,
        output: r#"{"layer":"<a>","refused":"desk_fault"}
"#,
    },
    Failure {
        input: "",
        outside: UNREAD,
        status: Status::ReadFault,
        output: "",
    },
    Failure {
        input: r#"{"hash":"<1>","layers":[{"hash":"<a>"}]}"#,
        outside: Outside {
            piece: 5,
            reads: &[],
            writes: &[3],
            desk: &[],
        },
        status: Status::WriteFault,
        output: r#"{"bomForma"#,
    },
];

/// Runs of `scan-list` in which a call of a stream fails.
pub static LIST_FAILURES: [Failure; 2] = [
    Failure {
        input: "",
        outside: UNREAD,
        status: Status::ReadFault,
        output: "",
    },
    Failure {
        input: "{}",
        outside: Outside {
            piece: 5,
            reads: &[],
            writes: &[2],
            desk: &[],
        },
        status: Status::WriteFault,
        output: r#"{"lin"#,
    },
];
