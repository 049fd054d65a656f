ghost use Rattle.std.specs.Prelude.{◌≡◌, false, ◌∷◌, ◌++◌, IfSome, IfNone};
ghost use Rattle.std.specs.List.{list_any};
ghost use Rattle.cv_base.specs.Path.{is_slash};
ghost use Rattle.cv_overlay.specs.code.Text.{is_within};

use cv_base::goes_on;

/// The directory and the name of a path of several components, given by its text: what stands round the last slash.
pub fn cut(text: &[u8]) -> Option<(&[u8], &[u8])>
    ensures parts { IfSome result (λ p. text.now ≡ p.0.now ++ 47 ∷ p.1.now) }
    ensures last { IfSome result (λ p. list_any is_slash p.1.now ≡ false) }
    ensures none { IfNone result (list_any is_slash text.now ≡ false) }
{
    let mut end = text.len();
    while end > 0 {
        if text[end - 1] == b'/' {
            return Some((&text[..end - 1], &text[end..]));
        }
        end -= 1;
    }
    None
}

/// Whether a text lies within a directory, or is the directory's own, if that is one.
pub fn is_within(directory: &[u8], text: &[u8], is_dir: bool) -> bool
    ensures { result ≡ is_within directory.now text.now is_dir }
{
    goes_on(directory, text) || (is_dir && text == directory)
}
