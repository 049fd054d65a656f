use cv_base::{PackageKind, RangeKind};

/// A package that is installed, and a record with one entry of four ranges, of which the last one affects it.
pub struct Sample {
    pub kind: PackageKind,
    pub ecosystem: &'static str,
    pub name: &'static str,
    pub version: &'static str,
    pub order: RangeKind,
    pub ranges: &'static [(&'static str, Option<&'static str>)],
}

impl Sample {
    /// A sample for a kind of package: `apk`, `npm`, and else of Debian.
    pub fn of(kind: &str) -> &'static Sample {
        match kind {
            "apk" => &APK,
            "npm" => &NPM,
            _ => &DEB,
        }
    }
}

macro_rules! sample {
    ($kind:ident $ecosystem:literal $name:literal $version:literal, $order:ident $($introduced:literal $fixed:literal),*) => {
        Sample {
            kind: PackageKind::$kind,
            ecosystem: $ecosystem,
            name: $name,
            version: $version,
            order: RangeKind::$order,
            ranges: &[$(($introduced, Some($fixed))),*],
        }
    };
}

static DEB: Sample = sample!(
    Deb "Debian:12" "openssl" "3.0.9-1",
    Ecosystem "0" "1.0.2u-1~deb9u7", "1.1.0" "1.1.1n-0+deb10u6", "1.1.1o-1" "1.1.1w-0+deb11u1", "3.0.0" "3.0.11-1~deb12u2"
);

static APK: Sample = sample!(
    Apk "Alpine:v3.19" "openssl" "3.2.1-r1",
    Ecosystem "0" "1.1.1t-r0", "3.0.0" "3.0.8-r0", "3.1.0" "3.1.4-r5", "3.2.0" "3.2.1-r2"
);

static NPM: Sample = sample!(
    Npm "npm" "ws" "8.16.0",
    Semver "0" "5.2.4", "6.0.0" "6.2.3", "7.0.0" "7.5.10", "8.0.0" "8.17.1"
);
