/// Arguments that are not a command.
pub static USAGES: [&[&str]; 17] = [
    &["order", "rpm", "1", "2"],
    &[],
    &["scan", "walk"],
    &["walk"],
    &["sbom", "walk"],
    &["sbom", "--help"],
    &["scan-list", "list.json"],
    &["scan", "list"],
    &["serve", "--workers", "0"],
    &["serve", "--workers", "9"],
    &["serve", "--workers"],
    &["serve", "1"],
    // more workers than desks
    &["serve", "--workers", "2"],
    // an option that is given twice
    &["serve", "--workers", "1", "--workers", "1"],
    // help
    &["serve", "--help"],
    &["--help"],
    &["drill", "-1"],
];
