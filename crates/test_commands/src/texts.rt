use cv_base::NoMemory;
use std::alloc::Global;

/// Texts that stand in the tests for their names.
static TEXTS: [(&str, &str); 17] = [
    // Debian's source package openssl, fixed in 3.0.11-1
    (
        "openssl",
        r#""modified":"2024-01-01T00:00:00Z","affected":[{"package":{"ecosystem":"Debian:12","name":"openssl"},"ranges":[{"type":"ECOSYSTEM","events":[{"introduced":"0"},{"fixed":"3.0.11-1"}]}]}]"#,
    ),
    // a record of it
    (
        "X-1",
        r#"{"id":"X-1","modified":"2024-01-01T00:00:00Z","affected":[{"package":{"ecosystem":"Debian:12","name":"openssl"},"ranges":[{"type":"ECOSYSTEM","events":[{"introduced":"0"},{"fixed":"3.0.11-1"}]}]}]}"#,
    ),
    // its package libssl3, where a record is found
    (
        "libssl3",
        r#""kind":"deb","name":"libssl3","path":"var/lib/dpkg/status","source":"openssl","source_version":"3.0.9-1","version":"3.0.9-1+b1""#,
    ),
    // a record of Alpine's openssl, and one of Debian's zlib
    (
        "alpine-openssl",
        r#"{"id":"A-1","modified":"2024-01-01T00:00:00Z","affected":[{"package":{"ecosystem":"Alpine:v3.18","name":"openssl"},"ranges":[{"type":"ECOSYSTEM","events":[{"introduced":"0"},{"fixed":"3.1.2-r0"}]}]}]}"#,
    ),
    (
        "debian-zlib",
        r#"{"id":"Z-1","modified":"2024-01-01T00:00:00Z","affected":[{"package":{"ecosystem":"Debian","name":"zlib"},"ranges":[{"type":"ECOSYSTEM","events":[{"introduced":"0"},{"fixed":"1:1.3"}]}]}]}"#,
    ),
    // the npm packages x and y, in all versions
    (
        "module-x",
        r#"{"id":"N-1","modified":"2024-01-01T00:00:00Z","affected":[{"package":{"ecosystem":"npm","name":"x"},"ranges":[{"type":"SEMVER","events":[{"introduced":"0"}]}]}]}"#,
    ),
    (
        "module-y",
        r#"{"id":"N-2","modified":"2024-01-01T00:00:00Z","affected":[{"package":{"ecosystem":"npm","name":"y"},"ranges":[{"type":"SEMVER","events":[{"introduced":"0"}]}]}]}"#,
    ),
    // what is found of y
    (
        "module-y-found",
        r#"{"advisory":"N-2","arch":"","ecosystem":"npm","feed":"scan","fixed":null,"kind":"npm","name":"y","path":"srv/node_modules/y/package.json","source":"y","source_version":"1.0.0","version":"1.0.0"}"#,
    ),
    // the Python package foo-bar, fixed in 1.0.post1; by a semantic range; and under the name as the package itself writes it
    (
        "python-foo-bar",
        r#"{"id":"P-1","modified":"2024-01-01T00:00:00Z","affected":[{"package":{"ecosystem":"PyPI","name":"foo-bar"},"ranges":[{"type":"ECOSYSTEM","events":[{"introduced":"0"},{"fixed":"1.0.post1"}]}]}]}"#,
    ),
    (
        "python-semantic",
        r#"{"id":"P-2","modified":"2024-01-01T00:00:00Z","affected":[{"package":{"ecosystem":"PyPI","name":"foo-bar"},"ranges":[{"type":"SEMVER","events":[{"introduced":"0"}]}]}]}"#,
    ),
    (
        "python-written",
        r#"{"id":"P-3","modified":"2024-01-01T00:00:00Z","affected":[{"package":{"ecosystem":"PyPI","name":"Foo.Bar"},"ranges":[{"type":"ECOSYSTEM","events":[{"introduced":"0"}]}]}]}"#,
    ),
    // what is found of foo-bar
    (
        "python-found",
        r#"{"advisory":"P-1","arch":"","ecosystem":"PyPI","feed":"scan","fixed":"1.0.post1","kind":"pypi","name":"Foo.Bar","path":"opt/Foo_Bar-1.0.dist-info/METADATA","source":"foo-bar","source_version":"1.0","version":"1.0"}"#,
    ),
    // a finding of openssl by a feed of a service
    (
        "openssl-in-deb",
        r#"{"advisory":"X-1","arch":"amd64","ecosystem":"Debian:12","feed":"deb","fixed":"3.0.11-1","kind":"deb","name":"libssl3","path":"var/lib/dpkg/status","source":"openssl","source_version":"3.0.9-1","version":"3.0.9-1+b1"}"#,
    ),
    // the seal of the layer `a`, as Python's hashlib computed it
    (
        "a-seal",
        "sha256:85c0b0b0ff65138a0a2fb3ae8e880e0fbab75178f296cf0cdfdc3d45c3b10b8e",
    ),
    // the component of libssl3 in a list, and the list of the image that has it alone
    (
        "libssl3-component",
        r#"{"name":"libssl3","properties":[{"name":"cvwatch:arch","value":"amd64"},{"name":"cvwatch:ecosystem","value":"Debian:12"},{"name":"cvwatch:kind","value":"deb"},{"name":"cvwatch:path","value":"var/lib/dpkg/status"},{"name":"cvwatch:source","value":"openssl"},{"name":"cvwatch:source_version","value":"3.0.9-1"}],"type":"library","version":"3.0.9-1+b1"}"#,
    ),
    (
        "libssl3-list",
        r#"{"bomFormat":"CycloneDX","components":[{"name":"libssl3","properties":[{"name":"cvwatch:arch","value":"amd64"},{"name":"cvwatch:ecosystem","value":"Debian:12"},{"name":"cvwatch:kind","value":"deb"},{"name":"cvwatch:path","value":"var/lib/dpkg/status"},{"name":"cvwatch:source","value":"openssl"},{"name":"cvwatch:source_version","value":"3.0.9-1"}],"type":"library","version":"3.0.9-1+b1"}],"metadata":{"component":{"name":"sha256:1111111111111111111111111111111111111111111111111111111111111111","type":"container"}},"specVersion":"1.5","version":1}"#,
    ),
    // a finding of openssl by a scan
    (
        "openssl-found",
        r#"{"advisory":"X-1","arch":"amd64","ecosystem":"Debian:12","feed":"scan","fixed":"3.0.11-1","kind":"deb","name":"libssl3","path":"var/lib/dpkg/status","source":"openssl","source_version":"3.0.9-1","version":"3.0.9-1+b1"}"#,
    ),
];

/// The text with what stands for its names in brackets. A bracket that is not closed is kept.
pub fn expand(alloc: Global, text: &str) -> Result<String, NoMemory> {
    let mut whole = String::new(alloc);
    push_expanded(&mut whole, text)?;
    Ok(whole)
}

fn push_expanded(whole: &mut String, text: &str) -> Result<(), NoMemory> {
    for (index, piece) in text.split('<').enumerate() {
        push_piece(whole, piece, index > 0)?;
    }
    Ok(())
}

/// Pushes a piece of a text, which may stand after a bracket.
fn push_piece(whole: &mut String, piece: &str, is_after_bracket: bool) -> Result<(), NoMemory> {
    if !is_after_bracket {
        whole.push_str(piece)?;
        return Ok(());
    }
    match piece.split_once('>') {
        Some((name, rest)) => push_named(whole, name, rest),
        None => push_kept(whole, piece),
    }
}

fn push_kept(whole: &mut String, piece: &str) -> Result<(), NoMemory> {
    whole.push('<')?;
    whole.push_str(piece)?;
    Ok(())
}

/// Pushes what stands for a name, and then the rest.
fn push_named(whole: &mut String, name: &str, rest: &str) -> Result<(), NoMemory> {
    push_name(whole, name)?;
    whole.push_str(rest)?;
    Ok(())
}

/// Pushes the text of a name, or the digest whose digits are all this one.
fn push_name(whole: &mut String, name: &str) -> Result<(), NoMemory> {
    for (known, text) in &TEXTS {
        if *known == name {
            whole.push_str(text)?;
            return Ok(());
        }
    }
    whole.push_str("sha256:")?;
    for _ in 0..64 {
        whole.push_str(name)?;
    }
    Ok(())
}
