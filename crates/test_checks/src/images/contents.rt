/// A status file with a package below its fixed version.
pub const OPENSSL: &[u8] =
    b"Package: libssl3\nStatus: install ok installed\nArchitecture: amd64\nSource: openssl (3.0.9-1)\nVersion: 3.0.9-1+b1\n";

/// One with another package below its fixed version.
pub const ZLIB: &[u8] =
    b"Package: zlib1g\nStatus: install ok installed\nArchitecture: amd64\nSource: zlib\nVersion: 1:1.2.13.dfsg-1\n";

/// A status file whose line 3 has no colon.
pub const BROKEN: &[u8] = b"Package: a\nStatus: install ok installed\nnocolon\n";

/// The database of an Alpine system with a package below its fixed version.
pub const CRYPTO: &[u8] = b"P:libcrypto3\nV:3.1.1-r1\nA:x86_64\no:openssl\n\n";

/// The os-release of a Debian system.
pub const DEBIAN: &[u8] = b"ID=debian\nVERSION_ID=\"12\"\n";

/// The os-release of an Alpine system.
pub const ALPINE: &[u8] = b"ID=alpine\nVERSION_ID=3.18.4\n";

/// The package.json of the npm package x.
pub const MODULE_X: &[u8] = b"{\"name\":\"x\",\"version\":\"1.0.0\"}";

/// The package.json of the npm package y.
pub const MODULE_Y: &[u8] = b"{\"name\":\"y\",\"version\":\"2.0.0\"}";

/// A status file with openssl at its fixed version.
pub const FIXED: &[u8] =
    b"Package: libssl3\nStatus: install ok installed\nArchitecture: amd64\nSource: openssl (3.0.11-1)\nVersion: 3.0.11-1\n";
