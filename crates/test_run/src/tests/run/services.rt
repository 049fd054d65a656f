/// Sessions of the service: the arguments, the input, and the transcript.
pub static CASES: [(&[&str], &str, &str); 12] = [
    // an input without a line
    (&["serve"], "", ""),
    // an input without a line
    (&["serve", "--workers", "1"], "", ""),
    // the number of workers in the same argument
    (&["serve", "--workers=1"], "", ""),
    // a report before its image is indexed, and one after that
    (
        &["serve", "--workers", "1"],
        r#"{"do":"register","manifest":{"hash":"<1>","layers":[{"hash":"<a>"}]}}
{"do":"report","image":"<1>"}


{"do":"report","image":"<1>"}"#,
        r#"{"at":1,"event":"register","image":"<1>","lane":0,"line":1,"reply":"registered"}
{"at":1,"image":"<1>","lane":0,"layer":"<a>","line":2,"read":"report","reply":"pending"}
{"at":2,"event":"claim","layer":"<a>","reply":"claimed","worker":0}
{"at":3,"event":"indexed","layer":"<a>","reply":"entered","worker":0}
{"at":3,"findings":[],"generation":0,"image":"<1>","lane":0,"line":5,"read":"report","reply":"good"}
"#,
    ),
    // an update makes a notification only if findings change
    (
        &["serve", "--workers", "1"],
        r#"{"do":"register","manifest":{"hash":"<1>","layers":[{"hash":"<a>"}]}}


{"do":"update","feed":"deb","advisories":[{"id":"X-1",<openssl>}]}

{"do":"update","feed":"deb","advisories":[{"id":"X-1","modified":"2024-01-02T00:00:00Z","details":"the same flaw","affected":[{"package":{"ecosystem":"Debian:12","name":"openssl"},"ranges":[{"type":"ECOSYSTEM","events":[{"introduced":"0"},{"fixed":"3.0.11-1"}]}]}]}]}

{"do":"update","feed":"deb","advisories":[{"id":"X-1","modified":"2024-01-01T00:00:00Z","affected":[{"package":{"ecosystem":"Debian:12","name":"openssl"},"ranges":[{"type":"ECOSYSTEM","events":[{"introduced":"0"},{"fixed":"3.0.12-1"}]}]}]}]}

{"do":"list"}
{"do":"page","number":3,"size":10,"page":1}"#,
        r#"{"at":1,"event":"register","image":"<1>","lane":0,"line":1,"reply":"registered"}
{"at":2,"event":"claim","layer":"<a>","reply":"claimed","worker":0}
{"at":3,"event":"indexed","layer":"<a>","reply":"entered","worker":0}
{"at":4,"event":"update","feed":"deb","generation":1,"lane":0,"line":4,"reply":"updated","rows":1}
{"at":5,"event":"update","feed":"deb","generation":2,"lane":0,"line":6,"reply":"updated","rows":0}
{"at":6,"event":"update","feed":"deb","generation":3,"lane":0,"line":8,"reply":"updated","rows":1}
{"at":6,"lane":0,"line":10,"notifications":[{"number":1,"rows":1},{"number":3,"rows":1}],"read":"list","reply":"list"}
{"at":6,"lane":0,"line":11,"number":3,"page":1,"pages":1,"read":"page","reply":"page","rows":[{"finding":{"advisory":"X-1","arch":"amd64","ecosystem":"Debian:12","feed":"deb","fixed":"3.0.12-1",<libssl3>},"image":"<1>","reason":"changed"}],"size":10}
"#,
    ),
    // a notification is read in pages until it is acknowledged
    (
        &["serve", "--workers", "1"],
        r#"{"do":"register","manifest":{"hash":"<1>","layers":[{"hash":"<a>"}]}}


{"do":"update","feed":"deb","advisories":[{"id":"X-1",<openssl>},{"id":"X-2",<openssl>},{"id":"X-3",<openssl>},{"id":"X-4",<openssl>},{"id":"X-5",<openssl>}]}

{"do":"page","number":1,"size":2,"page":1}
{"do":"page","number":1,"size":2,"page":2}
{"do":"page","number":1,"size":2,"page":3}
{"do":"page","number":1,"size":2,"page":4}
{"do":"page","number":1,"size":0,"page":1}
{"do":"ack","number":1}
{"do":"page","number":1,"size":2,"page":1}
{"do":"ack","number":1}"#,
        r#"{"at":1,"event":"register","image":"<1>","lane":0,"line":1,"reply":"registered"}
{"at":2,"event":"claim","layer":"<a>","reply":"claimed","worker":0}
{"at":3,"event":"indexed","layer":"<a>","reply":"entered","worker":0}
{"at":4,"event":"update","feed":"deb","generation":1,"lane":0,"line":4,"reply":"updated","rows":5}
{"line":10,"refused":"bad_request","what":"bad_size"}
{"at":4,"lane":0,"line":6,"number":1,"page":1,"pages":3,"read":"page","reply":"page","rows":[{"finding":{"advisory":"X-1","arch":"amd64","ecosystem":"Debian:12","feed":"deb","fixed":"3.0.11-1",<libssl3>},"image":"<1>","reason":"added"},{"finding":{"advisory":"X-2","arch":"amd64","ecosystem":"Debian:12","feed":"deb","fixed":"3.0.11-1",<libssl3>},"image":"<1>","reason":"added"}],"size":2}
{"at":4,"lane":0,"line":7,"number":1,"page":2,"pages":3,"read":"page","reply":"page","rows":[{"finding":{"advisory":"X-3","arch":"amd64","ecosystem":"Debian:12","feed":"deb","fixed":"3.0.11-1",<libssl3>},"image":"<1>","reason":"added"},{"finding":{"advisory":"X-4","arch":"amd64","ecosystem":"Debian:12","feed":"deb","fixed":"3.0.11-1",<libssl3>},"image":"<1>","reason":"added"}],"size":2}
{"at":4,"lane":0,"line":8,"number":1,"page":3,"pages":3,"read":"page","reply":"page","rows":[{"finding":{"advisory":"X-5","arch":"amd64","ecosystem":"Debian:12","feed":"deb","fixed":"3.0.11-1",<libssl3>},"image":"<1>","reason":"added"}],"size":2}
{"at":4,"lane":0,"line":9,"number":1,"page":4,"pages":3,"read":"page","reply":"no_page","size":2}
{"at":5,"event":"ack","lane":0,"line":11,"number":1,"reply":"acked"}
{"at":5,"lane":0,"line":12,"number":1,"page":1,"read":"page","reply":"no_notification","size":2}
{"at":6,"event":"ack","lane":0,"line":13,"number":1,"reply":"no_notification"}
"#,
    ),
    // an image that stands; its layer is indexed after the last round
    (
        &["serve", "--workers", "1"],
        r#"{"do":"register","manifest":{"hash":"<1>","layers":[{"hash":"<a>"}]}}
{"do":"register","manifest":{"hash":"<1>","layers":[{"hash":"<a>"}]}}
{"do":"register","manifest":{"hash":"<1>","layers":[{"hash":"<b>"}]}}
{"do":"register","manifest":{"hash":"<2>","layers":[]}}"#,
        r#"{"line":4,"refused":"bad_request","what":"no_layers"}
{"at":1,"event":"register","image":"<1>","lane":0,"line":1,"reply":"registered"}
{"at":2,"event":"register","image":"<1>","lane":0,"line":2,"reply":"already"}
{"at":3,"event":"register","image":"<1>","kept":["<a>"],"lane":0,"line":3,"reply":"conflict"}
{"at":4,"event":"claim","layer":"<a>","reply":"claimed","worker":0}
{"at":5,"event":"indexed","layer":"<a>","reply":"entered","worker":0}
"#,
    ),
    // a seal that its layer does not have: without it the image is another one, and its report names both seals
    (
        &["serve", "--workers", "1"],
        r#"{"do":"register","manifest":{"hash":"<1>","layers":[{"hash":"<a>","seal":"<0>"}]}}
{"do":"register","manifest":{"hash":"<1>","layers":[{"hash":"<a>"}]}}
{"do":"register","manifest":{"hash":"<1>","layers":[{"hash":"<a>","seal":"<0>"}]}}


{"do":"report","image":"<1>"}"#,
        r#"{"at":1,"event":"register","image":"<1>","lane":0,"line":1,"reply":"registered"}
{"at":2,"event":"register","image":"<1>","kept":["<a>"],"kept_seals":["<0>"],"lane":0,"line":2,"reply":"conflict"}
{"at":3,"event":"register","image":"<1>","lane":0,"line":3,"reply":"already"}
{"at":4,"event":"claim","layer":"<a>","reply":"claimed","worker":0}
{"at":5,"event":"indexed","layer":"<a>","reply":"entered","worker":0}
{"at":5,"bad":{"cause":"bad_seal","found":"<a-seal>","layer":0,"stated":"<0>"},"image":"<1>","lane":0,"line":6,"read":"report","reply":"bad_image"}
"#,
    ),
    // the seal of one of two layers, which it has
    (
        &["serve", "--workers", "1"],
        r#"{"do":"register","manifest":{"hash":"<1>","layers":[{"hash":"<a>","seal":"<a-seal>"},{"hash":"<d>"}]}}
{"do":"register","manifest":{"hash":"<1>","layers":[{"hash":"<a>"},{"hash":"<d>"}]}}


{"do":"update","feed":"deb","advisories":[{"id":"X-1",<openssl>}]}

{"do":"report","image":"<1>"}"#,
        r#"{"at":1,"event":"register","image":"<1>","lane":0,"line":1,"reply":"registered"}
{"at":2,"event":"register","image":"<1>","kept":["<a>","<d>"],"kept_seals":["<a-seal>",null],"lane":0,"line":2,"reply":"conflict"}
{"at":3,"event":"claim","layer":"<a>","reply":"claimed","worker":0}
{"at":4,"event":"indexed","layer":"<a>","reply":"entered","worker":0}
{"at":5,"event":"claim","layer":"<d>","reply":"claimed","worker":0}
{"at":6,"event":"indexed","layer":"<d>","reply":"entered","worker":0}
{"at":7,"event":"update","feed":"deb","generation":1,"lane":0,"line":5,"reply":"updated","rows":1}
{"at":7,"findings":[<openssl-in-deb>],"generation":1,"image":"<1>","lane":0,"line":7,"read":"report","reply":"good"}
"#,
    ),
    // a layer's digest is looked at before its seal; a seal that is there is a digest
    (
        &["serve"],
        r#"{"do":"register","manifest":{"hash":"<1>","layers":[{"hash":"<a>"},{"hash":"<b>","seal":null}]}}
{"do":"register","manifest":{"hash":"<1>","layers":[{"hash":"x","seal":"x"}]}}"#,
        r#"{"index":1,"line":1,"refused":"bad_request","what":"bad_seal"}
{"index":0,"line":2,"refused":"bad_request","what":"bad_layer"}
"#,
    ),
    // the refused lines of a round stand first
    (
        &["serve"],
        r#"{"do":"list"}
{
{"do":"update","feed":"deb","advisories":[{"id":"X-1",<openssl>},{}]}
{"do":"list"}"#,
        r#"{"line":2,"refused":"bad_json"}
{"index":1,"line":3,"refused":"bad_advisory","what":"no_id"}
{"at":0,"lane":0,"line":1,"notifications":[],"read":"list","reply":"list"}
{"at":0,"lane":0,"line":4,"notifications":[],"read":"list","reply":"list"}
"#,
    ),
    // a layer that no image names any more is not claimed
    (
        &["serve"],
        r#"{"do":"register","manifest":{"hash":"<1>","layers":[{"hash":"<a>"}]}}
{"do":"drop","image":"<1>"}"#,
        r#"{"at":1,"event":"register","image":"<1>","lane":0,"line":1,"reply":"registered"}
{"at":2,"event":"drop","image":"<1>","lane":0,"line":2,"reply":"dropped"}
"#,
    ),
];
