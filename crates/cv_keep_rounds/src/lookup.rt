ghost use Rattle.std.specs.Prelude.{◌≡◌, ◌<◌, ◌^◌, find, length, option_map};
ghost use Rattle.cv_keep_rounds.specs.code.Lookup.{has_number, line_at, near_line, text_at};

use cv_serve_dealing::NotedLine;

/// The text of the line of this number, or none if no line has it.
pub(crate) fn text_of(noted: &[NotedLine], number: u64) -> &[u8]
    ensures text { result.now ≡ text_at noted.now number }
    ensures fits { length result.now < 2 ^ 32 }
{
    match line_of(noted, number) {
        Some(line) => line.text(),
        None => &[],
    }
}

/// The line of this number. It is found at once, since the lines of a round are numbered one after the other.
fn line_of(noted: &[NotedLine], number: u64) -> Option<&NotedLine>
    ensures { option_map (λ line. line.now) result ≡ line_at noted.now number }
{
    match near_line(noted, number) {
        Some(line) => Some(line),
        None => first_line(noted, number),
    }
}

/// The line at the place that this number has if no number is left out, if it has this number.
fn near_line(noted: &[NotedLine], number: u64) -> Option<&NotedLine>
    ensures { option_map (λ line. line.now) result ≡ near_line noted.now number }
{
    let first = noted.first()?;
    let line = noted.get(number.saturating_sub(first.number()) as usize)?;
    if line.number() == number {
        return Some(line);
    }
    None
}

/// The first line of this number.
fn first_line(noted: &[NotedLine], number: u64) -> Option<&NotedLine>
    ensures { option_map (λ line. line.now) result ≡ find (has_number number) noted.now }
{
    for line in noted {
        if line.number() == number {
            return Some(line);
        }
    }
    None
}
