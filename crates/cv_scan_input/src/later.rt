/// What may stand in an input after line 1.
#[derive(Clone, Copy, Debug, PartialEq, Eq)]
pub enum Later {
    /// Records of advisories, one a line, and empty lines.
    Records,
    /// Empty lines alone.
    Nothing,
}
