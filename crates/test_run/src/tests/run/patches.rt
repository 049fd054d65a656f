/// Sessions of the service that patch a feed: the input, and the transcript.
pub static CASES: [(&str, &str); 5] = [
    // a patch of the feed as it was read last; a second one like it comes too late, and an id that does not stand is passed over
    (
        r#"{"do":"register","manifest":{"hash":"<1>","layers":[{"hash":"<a>"}]}}


{"do":"update","feed":"deb","advisories":[{"id":"X-1",<openssl>}]}

{"do":"update","feed":"deb","advisories":[{"id":"X-1","modified":"2024-01-02T00:00:00Z","details":"the same flaw","affected":[{"package":{"ecosystem":"Debian:12","name":"openssl"},"ranges":[{"type":"ECOSYSTEM","events":[{"introduced":"0"},{"fixed":"3.0.11-1"}]}]}]}]}

{"do":"update","feed":"deb","advisories":[{"id":"X-1","modified":"2024-01-01T00:00:00Z","affected":[{"package":{"ecosystem":"Debian:12","name":"openssl"},"ranges":[{"type":"ECOSYSTEM","events":[{"introduced":"0"},{"fixed":"3.0.12-1"}]}]}]}]}

{"do":"list"}
{"do":"page","number":3,"size":10,"page":1}

{"do":"patch","feed":"deb","base":3,"remove":["X-1","Q"],"advisories":[]}
{"do":"patch","feed":"deb","base":3,"remove":["X-1","Q"],"advisories":[]}"#,
        r#"{"at":1,"event":"register","image":"<1>","lane":0,"line":1,"reply":"registered"}
{"at":2,"event":"claim","layer":"<a>","reply":"claimed","worker":0}
{"at":3,"event":"indexed","layer":"<a>","reply":"entered","worker":0}
{"at":4,"event":"update","feed":"deb","generation":1,"lane":0,"line":4,"reply":"updated","rows":1}
{"at":5,"event":"update","feed":"deb","generation":2,"lane":0,"line":6,"reply":"updated","rows":0}
{"at":6,"event":"update","feed":"deb","generation":3,"lane":0,"line":8,"reply":"updated","rows":1}
{"at":6,"lane":0,"line":10,"notifications":[{"number":1,"rows":1},{"number":3,"rows":1}],"read":"list","reply":"list"}
{"at":6,"lane":0,"line":11,"number":3,"page":1,"pages":1,"read":"page","reply":"page","rows":[{"finding":{"advisory":"X-1","arch":"amd64","ecosystem":"Debian:12","feed":"deb","fixed":"3.0.12-1",<libssl3>},"image":"<1>","reason":"changed"}],"size":10}
{"at":7,"event":"patch","feed":"deb","generation":4,"lane":0,"line":13,"reply":"updated","rows":1}
{"at":8,"event":"patch","feed":"deb","kept":4,"lane":0,"line":14,"reply":"stale_base"}
"#,
    ),
    // a feed that does not stand is not made
    (
        r#"{"do":"patch","feed":"x","base":0,"advisories":[]}
{"do":"patch","feed":"x","base":0,"advisories":[]}"#,
        r#"{"at":1,"event":"patch","feed":"x","lane":0,"line":1,"reply":"no_feed"}
{"at":2,"event":"patch","feed":"x","lane":0,"line":2,"reply":"no_feed"}
"#,
    ),
    // the records that a patch does not name stay; one that it sends takes the place of the one with its id
    (
        r#"{"do":"register","manifest":{"hash":"<1>","layers":[{"hash":"<a>"}]}}


{"do":"update","feed":"deb","advisories":[{"id":"X-1",<openssl>},{"id":"X-2",<openssl>},{"id":"X-4",<openssl>}]}

{"do":"patch","feed":"deb","base":1,"remove":["X-2","X-4"],"advisories":[{"id":"X-3",<openssl>},{"id":"X-4",<openssl>}]}
{"do":"patch","feed":"deb","base":2,"advisories":[{"id":"X-1",<openssl>}]}

{"do":"page","number":2,"size":10,"page":1}
{"do":"page","number":3,"size":10,"page":1}
{"do":"page","number":1,"size":2,"page":1}
{"do":"patch","feed":"deb","base":3,"remove":["X-3","X-4"],"advisories":[]}
{"do":"report","image":"<1>"}"#,
        r#"{"at":1,"event":"register","image":"<1>","lane":0,"line":1,"reply":"registered"}
{"at":2,"event":"claim","layer":"<a>","reply":"claimed","worker":0}
{"at":3,"event":"indexed","layer":"<a>","reply":"entered","worker":0}
{"at":4,"event":"update","feed":"deb","generation":1,"lane":0,"line":4,"reply":"updated","rows":3}
{"at":5,"event":"patch","feed":"deb","generation":2,"lane":0,"line":6,"reply":"updated","rows":2}
{"at":6,"event":"patch","feed":"deb","generation":3,"lane":0,"line":7,"reply":"updated","rows":0}
{"at":6,"lane":0,"line":9,"number":2,"page":1,"pages":1,"read":"page","reply":"page","rows":[{"finding":{"advisory":"X-2","arch":"amd64","ecosystem":"Debian:12","feed":"deb","fixed":"3.0.11-1",<libssl3>},"image":"<1>","reason":"removed"},{"finding":{"advisory":"X-3","arch":"amd64","ecosystem":"Debian:12","feed":"deb","fixed":"3.0.11-1",<libssl3>},"image":"<1>","reason":"added"}],"size":10}
{"at":6,"lane":0,"line":10,"number":3,"page":1,"read":"page","reply":"no_notification","size":10}
{"at":6,"lane":0,"line":11,"number":1,"page":1,"pages":2,"read":"page","reply":"page","rows":[{"finding":{"advisory":"X-1","arch":"amd64","ecosystem":"Debian:12","feed":"deb","fixed":"3.0.11-1",<libssl3>},"image":"<1>","reason":"added"},{"finding":{"advisory":"X-2","arch":"amd64","ecosystem":"Debian:12","feed":"deb","fixed":"3.0.11-1",<libssl3>},"image":"<1>","reason":"added"}],"size":2}
{"at":7,"event":"patch","feed":"deb","generation":4,"lane":0,"line":12,"reply":"updated","rows":2}
{"at":7,"findings":[<openssl-in-deb>],"generation":4,"image":"<1>","lane":0,"line":13,"read":"report","reply":"good"}
"#,
    ),
    // the base is the generation of the feed, and not that of another one
    (
        r#"{"do":"update","feed":"a","advisories":[]}
{"do":"update","feed":"b","advisories":[]}
{"do":"patch","feed":"a","base":1,"advisories":[]}
{"do":"patch","feed":"b","base":3,"advisories":[]}
{"do":"patch","feed":"b","base":2,"advisories":[]}
{"do":"update","feed":"a","advisories":[]}
{"do":"patch","feed":"a","base":3,"advisories":[]}"#,
        r#"{"at":1,"event":"update","feed":"a","generation":1,"lane":0,"line":1,"reply":"updated","rows":0}
{"at":2,"event":"update","feed":"b","generation":2,"lane":0,"line":2,"reply":"updated","rows":0}
{"at":3,"event":"patch","feed":"a","generation":3,"lane":0,"line":3,"reply":"updated","rows":0}
{"at":4,"event":"patch","feed":"b","kept":2,"lane":0,"line":4,"reply":"stale_base"}
{"at":5,"event":"patch","feed":"b","generation":4,"lane":0,"line":5,"reply":"updated","rows":0}
{"at":6,"event":"update","feed":"a","generation":5,"lane":0,"line":6,"reply":"updated","rows":0}
{"at":7,"event":"patch","feed":"a","kept":5,"lane":0,"line":7,"reply":"stale_base"}
"#,
    ),
    // a line that is no patch changes nothing
    (
        r#"{"do":"update","feed":"a","advisories":[]}
{"do":"patch","feed":"a","base":-1,"advisories":[]}
{"do":"patch","feed":"a","base":1,"remove":null,"advisories":[]}
{"do":"patch","feed":"a","base":1}
{"do":"patch","feed":"a","base":1,"advisories":[{"id":"X-1",<openssl>},{"id":"X-1",<openssl>}]}
{"do":"patch","feed":"a","base":1,"advisories":[]}"#,
        r#"{"line":2,"refused":"bad_request","what":"bad_base"}
{"line":3,"refused":"bad_request","what":"bad_remove"}
{"line":4,"refused":"bad_request","what":"bad_advisories"}
{"first":0,"line":5,"refused":"duplicate_id","second":1}
{"at":1,"event":"update","feed":"a","generation":1,"lane":0,"line":1,"reply":"updated","rows":0}
{"at":2,"event":"patch","feed":"a","generation":2,"lane":0,"line":6,"reply":"updated","rows":0}
"#,
    ),
];
