use test_commands::Status;

/// Comparisons of versions: how each ends, what it prints, and the arguments of comparisons that do so.
pub static ORDERS: [(Status, &str, &[&[&str]]); 5] = [
    (
        Status::Done,
        "<\n",
        &[
            &["deb", "1.0~rc1", "1.0"],
            &["deb", "1.0-1", "1.0-1+b1"],
            &["apk", "1.2_rc1", "1.2"],
            &["apk", "1.2", "1.2_p1"],
            &["apk", "1.2_p1", "1.2a"],
            &["apk", "1.2a", "1.2.0"],
            &["apk", "1.2.0", "1.2.0-r1"],
            &["semver", "1.0.0-rc.1", "1.0.0"],
            &["pypi", "1.0.dev1", "1.0a1"],
            &["pypi", "1.0a1", "1.0a1.post1"],
            &["pypi", "1.0a1.post1", "1.0rc1"],
            &["pypi", "1.0rc1", "1.0"],
            &["pypi", "1.0", "1.0+abc"],
            &["pypi", "1.0+abc", "1.0+5"],
            &["pypi", "1.0+5", "1.0.post1"],
            &["pypi", "1.0.post1", "1!0"],
        ],
    ),
    (
        Status::Done,
        "=\n",
        &[
            &["deb", "1.0", "1.0-0"],
            &["semver", "--", "1.0.0", "1.0.0"],
            &["pypi", "1.0", "1.0.0"],
            &["pypi", "1.0-1", "1.0.post1"],
            &["pypi", "v1.0c1", "1.0RC1"],
        ],
    ),
    (
        Status::Done,
        ">\n",
        &[
            &["deb", "1:0", "9"],
            &[
                "deb",
                "100000000000000000000000000001",
                "100000000000000000000000000000",
            ],
        ],
    ),
    (
        Status::Refused,
        "not a version: first\n",
        &[
            &["deb", "a:1", "1"],
            &["deb", "a:1", "a:1"],
            &["pypi", "1.0a. 1", "1"],
        ],
    ),
    (
        Status::Refused,
        "not a version: second\n",
        &[&["apk", "1.2", "1.2~ab"], &["semver", "1.0.0", "1.0"]],
    ),
];

/// Arguments that are not a comparison.
pub static USAGES: [&[&str]; 6] = [
    &["rpm", "1", "2"],
    &["PyPI", "1", "2"],
    &["Deb", "1", "2"],
    &["", "1", "2"],
    &["deb", "1"],
    &[],
];
