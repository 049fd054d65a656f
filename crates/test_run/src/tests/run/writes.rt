/// A session of two rounds, and of one more at the end of the input.
pub const SESSION: &str = r#"{"do":"register","manifest":{"hash":"<1>","layers":[{"hash":"<a>"}]}}
{"do":"report","image":"<1>"}


{"do":"report","image":"<1>"}"#;

/// The write of it that fails, and what was written before.
pub static CASES: [(&[u64], &str); 5] = [
    (&[1], ""),
    (
        &[2],
        r#"{"at":1,"event":"register","image":"<1>","lane":0,"line":1,"reply":"registered"}
"#,
    ),
    (
        &[3],
        r#"{"at":1,"event":"register","image":"<1>","lane":0,"line":1,"reply":"registered"}
{"at":1,"image":"<1>","lane":0,"layer":"<a>","line":2,"read":"report","reply":"pending"}
"#,
    ),
    (
        &[4],
        r#"{"at":1,"event":"register","image":"<1>","lane":0,"line":1,"reply":"registered"}
{"at":1,"image":"<1>","lane":0,"layer":"<a>","line":2,"read":"report","reply":"pending"}
{"at":2,"event":"claim","layer":"<a>","reply":"claimed","worker":0}
"#,
    ),
    (
        &[5],
        r#"{"at":1,"event":"register","image":"<1>","lane":0,"line":1,"reply":"registered"}
{"at":1,"image":"<1>","lane":0,"layer":"<a>","line":2,"read":"report","reply":"pending"}
{"at":2,"event":"claim","layer":"<a>","reply":"claimed","worker":0}
{"at":3,"event":"indexed","layer":"<a>","reply":"entered","worker":0}
"#,
    ),
];
