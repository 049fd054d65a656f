/// What is asked of a paragraph without Status.
#[derive(Clone, Copy, Debug, PartialEq, Eq)]
pub enum StatusRule {
    /// It is a fault, as in `var/lib/dpkg/status`.
    Needed,
    /// Its package counts, as in the files of `var/lib/dpkg/status.d`.
    Optional,
}
