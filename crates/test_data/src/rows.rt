//! The rows of tables of layers. The caller of a macro imports `cv_base::Kind` and `cv_desk::entry`.

/// The folder of dpkg, and these rows below it. Rows before a semicolon come first.
#[macro_export]
macro_rules! dpkg_rows {
    ($($row:expr),* $(,)?) => {
        $crate::dpkg_rows![; $($row),*]
    };
    ($($first:expr),*; $($row:expr),* $(,)?) => {
        [
            $($first,)*
            entry!("var"),
            entry!("var/lib"),
            entry!("var/lib/dpkg"),
            $($row),*
        ]
    };
}

/// The modules of one program, and these rows after them.
#[macro_export]
macro_rules! module_rows {
    ($($row:expr),* $(,)?) => {
        [
            entry!("app"),
            entry!("app/node_modules"),
            $($row),*
        ]
    };
}

/// A Debian system, which has a link in place of one os-release, with this status file.
#[macro_export]
macro_rules! debian_rows {
    ($status:expr) => {
        $crate::dpkg_rows![
            entry!("etc"),
            entry!("etc/os-release", Other, b""),
            entry!("usr"),
            entry!("usr/lib"),
            entry!("usr/lib/os-release", b"ID=debian\nVERSION_ID=\"12\"\n");
            entry!("var/lib/dpkg/status", $status)
        ]
    };
}
