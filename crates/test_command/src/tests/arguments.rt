use cv_command_arguments::{Packages, seed_of, takes_none, versions_of, workers_of};
use std::alloc::Global;
use std::test::Fail;

fn arguments_of(alloc: Global, texts: &[&str]) -> Result<Vec<String>, Fail> {
    let mut arguments = Vec::new(alloc);
    for text in texts {
        arguments.push(String::from_str(alloc, *text)?)?;
    }
    Ok(arguments)
}

#[test]
fn arguments_are_taken_or_not(rt: HostRuntime) -> Result<(), Fail> {
    let alloc = rt.alloc();
    let none = arguments_of(alloc, &[])?;
    let two = arguments_of(alloc, &["--workers=2"])?;
    let help = arguments_of(alloc, &["--help"])?;
    let seed = arguments_of(alloc, &["7"])?;
    for name in ["scan", "sbom", "scan-list"] {
        assert!(rt; takes_none(alloc, name, none.as_slice())?, "of {name}");
        assert!(rt; !takes_none(alloc, name, help.as_slice())?, "of {name}");
    }
    assert_eq!(rt; workers_of(alloc, none.as_slice())?, Some(None));
    assert_eq!(rt; workers_of(alloc, two.as_slice())?, Some(Some(2)));
    assert_eq!(rt; workers_of(alloc, help.as_slice())?, None);
    assert_eq!(rt; seed_of(alloc, seed.as_slice())?, Some(7));
    assert_eq!(rt; seed_of(alloc, none.as_slice())?, None);
    Ok(())
}

#[test]
fn versions_are_read(rt: HostRuntime) -> Result<(), Fail> {
    let alloc = rt.alloc();
    let texts = arguments_of(alloc, &["deb", "1", "2~a"])?;
    match versions_of(alloc, texts.as_slice())? {
        Some(versions) => {
            assert_eq!(rt; versions.packages, Packages::Deb);
            assert_eq!(rt; versions.first, "1");
            assert_eq!(rt; versions.second, "2~a");
        }
        None => assert!(rt; false),
    }
    let one = arguments_of(alloc, &["deb", "1"])?;
    assert!(rt; versions_of(alloc, one.as_slice())?.is_none());
    Ok(())
}

#[test]
fn packages_have_one_of_four_names(rt: HostRuntime) -> Result<(), Fail> {
    let alloc = rt.alloc();
    for (name, want) in [
        ("deb", Some(Packages::Deb)),
        ("apk", Some(Packages::Apk)),
        ("semver", Some(Packages::Semver)),
        ("pypi", Some(Packages::Pypi)),
        ("rpm", None),
        ("npm", None),
        ("DEB", None),
        ("debian", None),
        ("", None),
    ] {
        let arguments = arguments_of(alloc, &[name, "1", "2"])?;
        let found = versions_of(alloc, arguments.as_slice())?;
        assert_eq!(rt; found.map(|versions| versions.packages), want, "of {name}");
    }
    Ok(())
}
