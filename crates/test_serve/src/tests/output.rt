use cv_drill::summary;
use std::alloc::Global;
use std::test::Fail;

/// The end of a summary without reports: the SHA-256 of no bytes (FIPS 180-4).
const NO_REPORT: &str =
    ", findings 0, sha256 e3b0c44298fc1c149afbf4c8996fb92427ae41e4649b934ca495991b7852b855";

/// Transcripts without reports, each with the numbers of its summary: one that is empty; replies, which are counted by their
/// words; a line that is not UTF-8; generations of updates, of which the greatest one counts; and lists of notifications, of which
/// the last one counts.
const TRANSCRIPTS: &[(&[u8], &str)] = &[
    (
        b"",
        "images 0, layers 0, generation 0, notifications 0, rows 0",
    ),
    (
        br#"{"reply":"registered"}
{"at":1,"event":"register","reply":"registered"}
{"reply":"entered"}
{"event":"registered"}
{"reply":["registered"]}
{"reply":"registered"
["registered"]

{"reply":"entered","reply":"pending"}
"#,
        "images 2, layers 1, generation 0, notifications 0, rows 0",
    ),
    (
        b"{\"reply\":\"entered\"}\n{\"reply\":\"\xff\"}\n{\"reply\":\"entered\"}",
        "images 0, layers 2, generation 0, notifications 0, rows 0",
    ),
    (
        br#"{"event":"update","generation":2}
{"event":"update","generation":5}
{"event":"update","generation":3}
{"event":"update","generation":"9"}
{"event":"update","generation":9.0}
{"event":"update","generation":-9}
{"event":"update"}
{"event":"claim","generation":9}
{"generation":9}
"#,
        "images 0, layers 0, generation 5, notifications 0, rows 0",
    ),
    (
        br#"{"notifications":[{"rows":1},{"rows":1},{"rows":1}]}
{"notifications":[{"rows":18446744073709551615},{"rows":18446744073709551615},{"rows":"1"},{"rows":1.0},{"number":4},7,[8]]}
{"notifications":{"rows":100}}
{"notifications":null}
"#,
        "images 0, layers 0, generation 0, notifications 7, rows 36893488147419103230",
    ),
];

/// The reports of a transcript, each with the number of its image and its findings. Image 63 has two good reports, of which the
/// last one counts in the sum, and image 0 has one: its others have a number, or are no good report. Image 64 is none of the
/// drill, and its finding is counted.
const REPORTS: &[(u32, &str)] = &[
    (63, r#"[{"name":"old"}]"#),
    (63, r#"["b","a"]"#),
    (0, r#"[{"b":null,"a":[true]}]"#),
    (0, r#"[[{"a":[7]}]]"#),
    (0, "[7.5]"),
    (64, r#"["of another image"]"#),
    (0, r#"{"a":"b"}"#),
];

/// The sum is that of another program.
const SUMMARY_OF_REPORTS: &str =
    "images 0, layers 0, generation 0, notifications 0, rows 0, findings 6, sha256 8b03bedcd67b81bab00894a10c05b3ea4a5cda6594ee8bf2aeb5da4370c8bf7d";

#[test]
fn transcripts_are_summed(rt: HostRuntime) -> Result<(), Fail> {
    for (transcript, numbers) in TRANSCRIPTS {
        let summary = summary(rt.alloc(), 7, transcript)?;
        assert_eq!(rt; summary.as_str().strip_suffix(NO_REPORT), Some(*numbers));
    }
    Ok(())
}

/// The line of a good report on an image.
fn report(alloc: Global, image: u32, findings: &str) -> Result<String, Fail> {
    Ok(format!(in alloc;
        "{{\"findings\":{findings},\"image\":\"sha256:ff{image:08x}{:054}\",\"read\":\"report\",\"reply\":\"good\"}}\n",
        0
    )?)
}

/// The transcript with the reports, and with one that is of no image.
fn reports(alloc: Global) -> Result<String, Fail> {
    let mut transcript = String::new(alloc);
    for (image, findings) in REPORTS {
        transcript.push_str(report(alloc, *image, findings)?.as_str())?;
    }
    transcript.push_str(r#"{"findings":["of no image"],"read":"report","reply":"good"}"#)?;
    Ok(transcript)
}

#[test]
fn the_last_good_report_of_each_image_is_summed(rt: HostRuntime) -> Result<(), Fail> {
    let transcript = reports(rt.alloc())?;
    let summary = summary(rt.alloc(), 7, transcript.as_bytes())?;
    assert_eq!(rt; summary.as_str(), SUMMARY_OF_REPORTS);
    Ok(())
}
