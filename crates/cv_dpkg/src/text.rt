//! Pieces of texts, all of them borrowed.
ghost use Rattle.std.specs.Prelude.{◌≡◌};
ghost use Rattle.std.specs.List.{position};
ghost use Rattle.std.specs.Option.{option_map};
ghost use Rattle.cv_base.specs.Cuts.{cut, is_blank};
ghost use Rattle.cv_dpkg.specs.code.NextWord.{next_word};

use cv_base::{is_blank, trim_front};

/// What stands before the first blank, and what after it.
#[tactic(auto, using(cv_path::proofs::Cuts::cut_is))]
fn cut_at_blank(text: &[u8]) -> Option<(&[u8], &[u8])>
    ensures { option_map (λ p. (p.0.now, p.1.now)) result ≡ cut is_blank text.now }
{
    let Some(at) = find_blank(text) else {
        return None;
    };
    let (front, back) = text.split_at(at);
    let (_, rest) = back.split_at(1);
    Some((front, rest))
}

fn find_blank(text: &[u8]) -> Option<usize>
    ensures { result ≡ position is_blank text.now }
{
    text.iter().position(|byte| is_blank(*byte))
}

/// The first word of a text, and what stands after it. Words lie between blanks.
pub fn next_word(text: &[u8]) -> Option<(&[u8], &[u8])>
    ensures { option_map (λ p. (p.0.now, p.1.now)) result ≡ next_word text.now }
{
    let text = trim_front(text);
    if text.is_empty() {
        return None;
    }
    match cut_at_blank(text) {
        Some((word, rest)) => Some((word, rest)),
        None => Some((text, &[])),
    }
}
