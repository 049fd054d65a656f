use cv_base::{NoMemory, Text};
use cv_match_range::SemanticVersion;
use std::alloc::Global;
use std::cmp::Ordering;
use std::test::Fail;

/// `<`, `=` or `>`, or `?` where one of the two is not a valid version.
fn ordering(alloc: Global, a: &str, b: &str) -> Result<&'static str, NoMemory> {
    let one = SemanticVersion::read(alloc, &Text::of(alloc, a)?)?;
    let two = SemanticVersion::read(alloc, &Text::of(alloc, b)?)?;
    match (one, two) {
        (Some(one), Some(two)) => Ok(match one.compare(&two) {
            Ordering::Less => "<",
            Ordering::Equal => "=",
            Ordering::Greater => ">",
        }),
        _ => Ok("?"),
    }
}

/// Pairs of semantic versions: pre-releases, build metadata and a text that is not a version, then numbers above 64 bits, which
/// are in pre-releases alone.
const PAIRS: &str = "\
1.0.0-rc.1 < 1.0.0
1.0.0-alpha.beta > 1.0.0-alpha.1
1.0.0-beta.2 < 1.0.0-beta.11
1.0.0+a = 1.0.0+b
1.0 ? 1.0.0
18446744073709551616.0.0 ? 1.0.0
18446744073709551615.0.0 > 1.0.0
1.0.0-9999999999999999999999998 < 1.0.0-9999999999999999999999999
1.0.0-1000000000000000000000000 > 1.0.0-999999999999999999999999
1.0.0-1000000000000000000000000 < 1.0.0-a
";

#[test]
fn semantic_versions_compare_by_precedence(rt: HostRuntime) -> Result<(), Fail> {
    let alloc = rt.alloc();
    let mut compared = 0usize;
    for line in PAIRS.lines() {
        let mut words = line.split(' ');
        let (Some(a), Some(sign), Some(b)) = (words.next(), words.next(), words.next()) else {
            break;
        };
        assert_eq!(rt; ordering(alloc, a, b)?, sign, "{line}");
        compared = compared.saturating_add(1);
    }
    assert_eq!(rt; compared, 10);
    Ok(())
}

/// Only a type that threads may share is one for which this can be called.
fn is_shared<T: Send + Sync>() {}

#[test]
fn semantic_versions_are_shared_by_threads() {
    is_shared::<SemanticVersion>();
}
