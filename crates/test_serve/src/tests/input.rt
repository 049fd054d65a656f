use cv_base::Seq;
use cv_drill::script;
use sha2::{Digest, Sha256};
use std::alloc::Global;
use std::test::Fail;

/// The first line of the script of 7: image 0 has the layers 7, 8 and 9 of the first three roles.
const FIRST_LINE: &str =
    r#"{"do":"register","lane":0,"manifest":{"hash":"sha256:ff00000000000000000000000000000000000000000000000000000000000000","layers":[{"hash":"sha256:0000000007000000000000000000000000000000000000000000000000000000"},{"hash":"sha256:0100000008000000000000000000000000000000000000000000000000000000"},{"hash":"sha256:0200000009000000000000000000000000000000000000000000000000000000"}]}}"#;

/// The second line: an image with an odd number has two layers more.
const SECOND_LINE: &str =
    r#"{"do":"register","lane":1,"manifest":{"hash":"sha256:ff00000001000000000000000000000000000000000000000000000000000000","layers":[{"hash":"sha256:0000000008000000000000000000000000000000000000000000000000000000"},{"hash":"sha256:010000000b000000000000000000000000000000000000000000000000000000"},{"hash":"sha256:0200000010000000000000000000000000000000000000000000000000000000"},{"hash":"sha256:0300000008000000000000000000000000000000000000000000000000000000"},{"hash":"sha256:020000000d000000000000000000000000000000000000000000000000000000"}]}}"#;

/// The beginnings of the two updates.
const FIRST_UPDATE: &str =
    r#"{"advisories":[{"affected":[{"package":{"ecosystem":"Debian:12","name":"p00"},"ranges":[{"events":[{"introduced":"0"},{"fixed":"1.0-1"}],"type":"ECOSYSTEM"}]}],"id":"GEN-0000","modified":"2024-01-01T00:00:00Z"},{"affected":[{"package":{"ecosystem":"npm","name":"n01"},"ranges":[{"events":[{"introduced":"0"},{"last_affected":"1.0.0"}],"type":"SEMVER"}]}],"id":"GEN-0001","#;

const SECOND_UPDATE: &str =
    r#"{"advisories":[{"affected":[{"package":{"ecosystem":"npm","name":"n01"},"ranges":[{"events":[{"introduced":"0"},{"last_affected":"1.1.0"}],"type":"SEMVER"}]}],"id":"GEN-0001","modified":"2024-01-01T00:00:00Z"},{"affected":[{"package":{"ecosystem":"Debian:12","name":"p02"},"ranges":[{"events":[{"introduced":"0"},{"fixed":"1.0-1"}],"type":"ECOSYSTEM"}]}],"id":"GEN-0002","#;

/// The last report.
const LAST_REPORT: &str =
    r#"{"do":"report","image":"sha256:ff0000003f000000000000000000000000000000000000000000000000000000","lane":7}"#;

const LIST: &str = r#"{"do":"list","lane":0}"#;

/// Lines of the script of 7, each with its index, from 0. A round ends at an empty line; the report is the last one.
const LINES: &[(usize, &str)] = &[
    (0, FIRST_LINE),
    (1, SECOND_LINE),
    (64, ""),
    (65, ""),
    (67, ""),
    (69, ""),
    (133, LAST_REPORT),
    (134, LIST),
    (135, ""),
];

/// Lines with these beginnings: the feed comes twice.
const BEGINNINGS: &[(usize, &str)] = &[(66, FIRST_UPDATE), (68, SECOND_UPDATE)];

/// The SHA-256 of scripts, in hexadecimal, as another program has them, which makes the same lines.
const SUMS: &[(u32, &str)] = &[
    (
        7,
        "bb7b29c9a4f74ba939dfa5394eb75c2d5998b5b9a14fb3aa8ea11736308eaf18",
    ),
    (
        1999,
        "c4518e901be6b16a6283b3aac0d273db646df1d936002c7195e9956b80ce1de7",
    ),
    (
        u32::MAX,
        "6ba9c7aa7a88b8d49d1b8241bd75b27078912022a23f0ea4de12636b91f47655",
    ),
];

fn lines(alloc: Global, input: &Seq<u8>) -> Result<Vec<&[u8]>, Fail> {
    Ok(
        input
            .as_slice()
            .split(|byte| *byte == b'\n')
            .collect(alloc)?,
    )
}

fn is_line(lines: &[&[u8]], index: usize, line: &str) -> bool {
    lines.get(index).copied() == Some(line.as_bytes())
}

fn begins_line(lines: &[&[u8]], index: usize, beginning: &str) -> bool {
    let line = lines.get(index).copied().unwrap_or(b"");
    line.starts_with(beginning.as_bytes())
}

#[test]
fn a_script_has_these_lines(rt: HostRuntime) -> Result<(), Fail> {
    let input = script(rt.alloc(), 7)?;
    let lines = lines(rt.alloc(), &input)?;
    for (index, line) in LINES {
        assert!(rt; is_line(&lines, *index, line), "line {index}");
    }
    for (index, beginning) in BEGINNINGS {
        assert!(rt; begins_line(&lines, *index, beginning), "line {index}");
    }
    let empty = lines.iter().filter(|line| line.is_empty()).count();
    assert_eq!(rt; (empty, lines.len()), (5, 136));
    Ok(())
}

#[test]
fn whole_scripts_are_those_of_another_program(rt: HostRuntime) -> Result<(), Fail> {
    for (seed, sum) in SUMS {
        let input = script(rt.alloc(), *seed)?;
        let hash = hex::encode(rt.alloc(), Sha256::digest(input.as_slice()))?;
        assert_eq!(rt; hash.as_str(), *sum, "of {seed}");
    }
    Ok(())
}
