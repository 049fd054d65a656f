ghost use Rattle.std.specs.Prelude.{◌≡◌, ◌++◌, ◌∷◌, [], List, ℕ, is_some, length, unwrap_or};
ghost use Rattle.std.specs.Option.{ForSome, option_map};
ghost use Rattle.cv_seal.specs.Seal.{SealedEntry, entry_bytes, is_summed, letter, seal_of, sealed_entry};
ghost use Rattle.cv_seal.specs.Taken.{HasTaken};
ghost use Rattle.cv_seal.specs.code.Summed.{HasSummed};

use cv_base::{Digest, Kind, ListEntry};
use sha2::{Digest as Hasher, Sha256};

/// A seal that takes in the entries of a layer one by one, in the order of their paths.
#[derive(Drop)]
pub struct Seal {
    hasher: Sha256,
}

impl Seal {
    /// The seal of no entries.
    #[tactic(auto, unfolding(crate::specs::Taken::HasTaken, crate::specs::code::Summed::HasSummed))]
    pub fn new() -> Seal
        ensures { HasTaken result [] }
    {
        let mut hasher = Sha256::new();
        hasher.update(b"cvwatch seal 1\n");
        Seal { hasher }
    }

    /// Takes in an entry. Its contents are given exactly if `is_summed` says so, and whole.
    #[tactic(auto, unfolding(crate::specs::Taken::HasTaken))]
    pub fn entry(&mut self, entry: &ListEntry, content: Option<&[u8]>)
        requires given { is_some content ≡ is_summed entry.now }
        requires whole { ForSome content (λ bytes. length bytes.now ≡ entry.now.size) }
        ensures { (taken : List SealedEntry) → HasTaken self.old taken → HasTaken self.new (taken ++ sealed_entry entry.now (option_map (λ bytes. bytes.now) content.entry) ∷ []) }
    {
        self.sum(entry, content);
    }

    /// Sums the bytes of an entry.
    #[tactic(auto, unfolding(crate::specs::code::Summed::HasSummed))]
    fn sum(&mut self, entry: &ListEntry, content: Option<&[u8]>)
        requires given { is_some content ≡ is_summed entry.now }
        requires whole { ForSome content (λ bytes. length bytes.now ≡ entry.now.size) }
        ensures { (bytes : List ℕ) → HasSummed self.old bytes → HasSummed self.new (bytes ++ entry_bytes entry.now (unwrap_or (option_map (λ bytes. bytes.now) content.entry) [])) }
    {
        let path = entry.path.text();
        self.hasher.update([letter(entry.kind)]);
        self.hasher.update((path.len() as u32).to_be_bytes());
        self.hasher.update(path);
        if entry.kind == Kind::File {
            self.hasher.update(entry.size.to_be_bytes());
        }
        if let Some(bytes) = content {
            self.hasher.update(bytes);
        }
    }

    /// The seal of the entries that were taken in.
    #[tactic(auto, unfolding(crate::specs::Taken::HasTaken, crate::specs::code::Summed::HasSummed))]
    pub fn finish(self) -> Digest
        ensures { (taken : List SealedEntry) → HasTaken self taken → result ≡ seal_of taken }
    {
        Digest::of(self.hasher.finalize())
    }
}

/// The letter of what stands at a path.
fn letter(kind: Kind) -> u8
    ensures { result ≡ letter kind }
{
    match kind {
        Kind::Dir => b'd',
        Kind::File => b'f',
        Kind::Other => b'o',
    }
}
