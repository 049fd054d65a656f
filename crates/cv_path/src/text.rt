//! Pieces of texts, all of them borrowed.
ghost use Rattle.std.specs.Prelude.{◌≡◌, ◌∷◌, ◌==◌, ◌<◌, ◌≤◌, IfSome, Some, length};
ghost use Rattle.std.specs.List.{position, slice_split};
ghost use Rattle.std.specs.Option.{option_map};
ghost use Rattle.cv_path.specs.Cuts.{begins_with_blank, cut, is_blank, is_dropped, without_end, without_front};
ghost use Rattle.cv_path.specs.Texts.{same_name};
ghost use Rattle.cv_path.specs.code.Cuts.{remaining_len, remaining_lines, remaining_parts};

/// The text before the first of these bytes, and the text after it.
#[tactic(auto, using(crate::proofs::Cuts::cut_is))]
pub fn cut_at(text: &[u8], byte: u8) -> Option<(&[u8], &[u8])>
    ensures parts { option_map (λ p. (p.0.now, p.1.now)) result ≡ cut (λ b. b == byte) text.now }
    ensures shorter { IfSome result (λ p. length p.1.now < length text.now) }
{
    let Some(at) = find(text, byte) else {
        return None;
    };
    let (front, back) = text.split_at(at);
    let (_, rest) = back.split_at(1);
    Some((front, rest))
}

/// The index of the first of these bytes.
fn find(text: &[u8], byte: u8) -> Option<usize>
    ensures { result ≡ position (λ b. b == byte) text.now }
{
    text.iter().position(|b| *b == byte)
}

/// The text before the first of these bytes, and the text after it; the whole text if it has none.
#[tactic(auto, using(crate::proofs::Cuts::split_cut))]
pub(crate) fn split_first(text: &[u8], byte: u8) -> (&[u8], Option<&[u8]>)
    ensures parts { slice_split (λ b. b == byte) text.now ≡ result.0.now ∷ remaining_parts (λ b. b == byte) (option_map (λ s. s.now) result.1) }
    ensures shorter { remaining_len (option_map (λ s. s.now) result.1) ≤ length text.now }
{
    match cut_at(text, byte) {
        Some((front, rest)) => (front, Some(rest)),
        None => (text, None),
    }
}

/// The first line, and the text after its LF, if it has one.
pub fn next_line(bytes: &[u8]) -> (&[u8], Option<&[u8]>)
    ensures lines { remaining_lines (Some bytes.now) ≡ result.0.now ∷ remaining_lines (option_map (λ s. s.now) result.1) }
    ensures shorter { remaining_len (option_map (λ s. s.now) result.1) ≤ length bytes.now }
{
    split_first(bytes, b'\n')
}

/// A line without the blanks and CRs at its end.
#[tactic(auto, using(crate::proofs::Ends::end_more, crate::proofs::Ends::end_done))]
pub fn trim_line(line: &[u8]) -> &[u8]
    ensures { result.now ≡ without_end is_dropped line.now }
{
    let mut kept = line;
    while let Some((last, front)) = kept.split_last() {
        if !is_dropped(*last) {
            return kept;
        }
        kept = front;
    }
    kept
}

/// A text without the blanks at its front.
pub fn trim_front(text: &[u8]) -> &[u8]
    ensures { result.now ≡ without_front is_blank text.now }
{
    let mut rest = text;
    while let [first, after @ ..] = rest {
        if !is_blank(*first) {
            return rest;
        }
        rest = after;
    }
    rest
}

/// A text without the blanks at its end.
#[tactic(auto, using(crate::proofs::Ends::end_more, crate::proofs::Ends::end_done))]
pub fn trim_end(text: &[u8]) -> &[u8]
    ensures { result.now ≡ without_end is_blank text.now }
{
    let mut rest = text;
    while let Some((last, front)) = rest.split_last() {
        if !is_blank(*last) {
            return rest;
        }
        rest = front;
    }
    rest
}

/// Whether a text begins with a blank.
pub fn begins_with_blank(text: &[u8]) -> bool
    ensures { result ≡ begins_with_blank text.now }
{
    match text {
        [] => false,
        [first, ..] => is_blank(*first),
    }
}

/// Whether two texts are the same but for the case of ASCII letters.
pub fn is_same_name(one: &[u8], other: &[u8]) -> bool
    ensures { result ≡ same_name one.now other.now }
{
    let mut left = one;
    let mut right = other;
    while let [x, xs @ ..] = left {
        let [y, ys @ ..] = right else {
            return false;
        };
        if x.to_ascii_lowercase() != y.to_ascii_lowercase() {
            return false;
        }
        left = xs;
        right = ys;
    }
    right.is_empty()
}

/// Whether a byte is dropped at the end of a line: a blank or a CR.
pub fn is_dropped(byte: u8) -> bool
    ensures { result ≡ is_dropped byte }
{
    is_blank(byte) || byte == b'\r'
}

/// Whether a byte is a space or a tab.
pub fn is_blank(byte: u8) -> bool
    ensures { result ≡ is_blank byte }
{
    byte == b' ' || byte == b'\t'
}
