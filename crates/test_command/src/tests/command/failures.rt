use test_commands::{Failure, Outside, Status, UNREAD};

/// Scans in which a call of a stream or of the desk fails.
pub static CASES: [Failure; 6] = [
    // a listing fails
    Failure {
        input: r#"{"hash":"<1>","layers":[{"hash":"<a>"}]}
{"id":"X-1",<openssl>}"#,
        outside: Outside {
            piece: 100,
            reads: &[],
            writes: &[],
            desk: &[1],
        },
        status: Status::DeskFault,
        output: r#"{"layer":"<a>","refused":"desk_fault"}
"#,
    },
    // a read fails
    Failure {
        input: r#"{"hash":"<1>","layers":[{"hash":"<a>"},{"hash":"<b>"}]}
{"id":"X-1",<openssl>}"#,
        outside: Outside {
            piece: 100,
            reads: &[],
            writes: &[],
            desk: &[3],
        },
        status: Status::DeskFault,
        output: r#"{"layer":"<a>","refused":"desk_fault"}
"#,
    },
    // the second layer of three, of which two are alike
    Failure {
        input: r#"{"hash":"<1>","layers":[{"hash":"<a>"},{"hash":"<a>"},{"hash":"<b>"}]}
{"id":"X-1",<openssl>}"#,
        outside: Outside {
            piece: 100,
            reads: &[],
            writes: &[],
            desk: &[4],
        },
        status: Status::DeskFault,
        output: r#"{"layer":"<b>","refused":"desk_fault"}
"#,
    },
    // the input of a scan
    Failure {
        input: "",
        outside: UNREAD,
        status: Status::ReadFault,
        output: "",
    },
    // the output of a scan, after its first bytes
    Failure {
        input: "",
        outside: Outside {
            piece: 5,
            reads: &[],
            writes: &[2],
            desk: &[],
        },
        status: Status::WriteFault,
        output: r#"{"lin"#,
    },
    // nothing, within its calls
    Failure {
        input: "",
        outside: Outside {
            piece: 5,
            reads: &[9],
            writes: &[9],
            desk: &[],
        },
        status: Status::Refused,
        output: r#"{"line":1,"refused":"no_manifest"}
"#,
    },
];
