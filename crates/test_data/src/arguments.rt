/// The number that stands among the arguments at an index, or another one where none stands there.
pub fn number(arguments: &[String], index: usize, other: u64) -> u64 {
    match arguments.get(index) {
        Some(argument) => argument.as_str().parse().unwrap_or(other),
        None => other,
    }
}
