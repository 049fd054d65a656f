/// An image of one layer, and a round without lines after it.
pub const SESSION: &str = r#"{"do":"register","manifest":{"hash":"<1>","layers":[{"hash":"<a>"}]}}


"#;

/// The call of the desk that fails: the listing of the layer, the read of its first file, or that of the last one.
pub static DESK_CALLS: [&[u64]; 3] = [&[1], &[2], &[3]];

/// The layer is given back, and claimed again.
pub const CLAIMED_AGAIN: &str =
    r#"{"at":1,"event":"register","image":"<1>","lane":0,"line":1,"reply":"registered"}
{"at":2,"event":"claim","layer":"<a>","reply":"claimed","worker":0}
{"at":3,"event":"fault","layer":"<a>","reply":"requeued","worker":0}
{"at":4,"event":"claim","layer":"<a>","reply":"claimed","worker":0}
{"at":5,"event":"indexed","layer":"<a>","reply":"entered","worker":0}
"#;

/// The read of the input that fails, the input, and what was printed before.
pub static READS: [(&[u64], &str, &str); 3] = [
    // after the first round
    (
        &[5],
        r#"{"do":"register","manifest":{"hash":"<1>","layers":[{"hash":"<a>"}]}}

{"do":"report","image":"<1>"}
{"do":"report","image":"<1>"}
{"do":"report","image":"<1>"}
{"do":"report","image":"<1>"}
{"do":"report","image":"<1>"}
{"do":"report","image":"<1>"}
{"do":"report","image":"<1>"}
{"do":"report","image":"<1>"}"#,
        r#"{"at":1,"event":"register","image":"<1>","lane":0,"line":1,"reply":"registered"}
"#,
    ),
    // the first read of all
    (
        &[1],
        r#"{"do":"register","manifest":{"hash":"<1>","layers":[{"hash":"<a>"}]}}

"#,
        "",
    ),
    // the read after a round, in which no layer is claimed then
    (
        &[4],
        r#"{"do":"register","manifest":{"hash":"<1>","layers":[{"hash":"<a>"}]}}

"#,
        r#"{"at":1,"event":"register","image":"<1>","lane":0,"line":1,"reply":"registered"}
"#,
    ),
];
