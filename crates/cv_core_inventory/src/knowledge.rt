ghost use Rattle.std.specs.Prelude.{◌≡◌, IfOk};
ghost use Rattle.std.specs.List.Sorted.{IsStrictlySortedBy};
ghost use Rattle.std.specs.Map.{keys_of};
ghost use Rattle.std.specs.Option.{option_map};
ghost use Rattle.cv_core_machine.specs.State.{value_at};
ghost use Rattle.cv_match.specs.Findings.{text_cmp};
ghost use Rattle.cv_core_inventory.specs.Knowledge.{nothing_known};

use crate::facts::Facts;
use cv_advdb::Feeds;
use cv_base::{Digest, NoMemory};
use cv_core_outcome::Outcome;
use cv_desk::Desk;
use cv_tree::{Share, Shared, Tree};
use std::alloc::Global;
use std::marker::Model;

/// The outcome of each image, by hash.
pub type Outcomes = Tree<Digest, Outcome>;

/// The facts of layers, the outcomes of images, and the feeds.
pub struct Knowledge<D: Desk> {
    pub(crate) facts: Facts<D>,
    pub(crate) outcomes: Outcomes,
    pub(crate) feeds: Shared<Feeds>,
}

/// Written out, so that the crates above call it, and do not prove anew how each part is dropped.
impl<D: Desk + Drop> Drop for Knowledge<D> {
    fn drop(self) {
        let Knowledge {
            facts: _,
            outcomes: _,
            feeds: _,
        } = self;
    }
}

impl<D: Desk> Model for Knowledge<D> {
    ghost use Rattle.cv_core_inventory.specs.Knowledge.{KnowledgeView};

    ghost Value = { KnowledgeView };

    ghost view = { λ k. record { facts = k.facts; outcomes = k.outcomes; feeds = k.feeds } };
}

impl<D: Desk + Drop> Knowledge<D> {
    /// Nothing. There may be as many feeds as `limit` says.
    pub fn new(alloc: Global, limit: u32) -> Result<Knowledge<D>, NoMemory>
        ensures { IfOk result (λ knowledge. knowledge ≡ nothing_known limit) }
    {
        let feeds = Feeds::new(alloc, limit)?;
        Ok(Knowledge {
            facts: Facts::new(),
            outcomes: Tree::new(),
            feeds: Shared::of(alloc, feeds)?,
        })
    }

    /// The feeds.
    pub fn feeds(&self) -> &Feeds
        ensures { result.now ≡ self.now.feeds }
    {
        self.feeds.value()
    }

    /// The outcome of an image, if it has one. It takes no memory.
    pub fn outcome(&self, image: &Digest) -> Option<&Outcome>
        ensures { option_map (λ outcome. outcome.now) result ≡ value_at self.now.outcomes image.now }
    {
        self.outcomes.get(image)
    }

    /// The outcomes of all images by hash, shared.
    pub fn outcomes(&self) -> Result<Outcomes, NoMemory>
        ensures { IfOk result (λ outcomes. outcomes ≡ self.now.outcomes) }
    {
        self.outcomes.share()
    }

    /// Facts and feeds are in ascending order. For proofs: it has no effect at run time.
    pub fn sorted_law(&self)
        ensures facts { IsStrictlySortedBy text_cmp (keys_of self.now.facts) }
        ensures feeds { IsStrictlySortedBy text_cmp (keys_of self.now.feeds.feeds) }
    {
        self.facts.sorted_law();
        self.feeds.value().sorted_law();
    }
}

/// Equal knowledge, which shares all parts. It takes no memory, and fails only if a count of owners is saturated.
impl<D: Desk + Drop> Share for Knowledge<D> {
    fn share(&self) -> Result<Knowledge<D>, NoMemory> {
        Ok(Knowledge {
            facts: self.facts.share()?,
            outcomes: self.outcomes.share()?,
            feeds: self.feeds.share()?,
        })
    }
}
