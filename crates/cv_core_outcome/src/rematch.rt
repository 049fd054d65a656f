ghost use Rattle.std.specs.Prelude.{◌≡◌, ◌+◌, ◌++◌, ◌≤◌, unwrap_or, IfOk, OnOk};
ghost use Rattle.cv_findings.specs.Pairs.{pair_count};
ghost use Rattle.cv_findings.specs.Rematch.{rematched, touched_packages};
ghost use Rattle.cv_findings.specs.Rows.{rows_of};
ghost use Rattle.cv_core_outcome.specs.Update.{has_touched, rematch_pairs, rematched_at, rows_at};

use crate::findings::Findings;
use crate::outcome::Outcome;
use cv_advdb::{Feeds, Touched};
use cv_base::{Digest, NoMemory, Package, Row, Seq, Steps};
use cv_findings::{any_touched, rematch, rows};
use cv_tree::{Remake, Share};
use std::alloc::Global;
use std::marker::PhantomData;
use std::sync::ledger::Ledger;

/// Matches images again after an update. `Tree::remake_at` with it gives the outcomes of images after the update, and adds the
/// rows to notify of, in ascending order of the images' hashes. Of an image only the packages that have a touched key are
/// matched; the findings of the others stay, and an image without such a package stays as it is.
#[derive(Drop)]
pub struct Rematch<'a, L: Ledger> {
    pub feeds: &'a Feeds,
    pub touched: &'a Touched,
    of: PhantomData<L>,
}

impl<'a, L: Ledger> Rematch<'a, L> {
    /// Matches with these feeds what has one of these keys.
    pub fn new(feeds: &'a Feeds, touched: &'a Touched) -> Rematch<'a, L>
        ensures feeds { result.feeds.now ≡ feeds.now }
        ensures touched { result.touched.now ≡ touched.now }
    {
        Rematch {
            feeds,
            touched,
            of: PhantomData,
        }
    }

    /// The findings of packages after the update, of which these were the findings before it.
    #[tactic(auto, using(crate::proofs::AgainLemmas::rematched_sorted))]
    fn again(
        &self,
        alloc: Global,
        packages: &[Package],
        before: &Findings,
        steps: &mut Steps<L>,
    ) -> Result<Findings, NoMemory>
        ensures value { IfOk result (λ found. found ≡ rematched self.now.touched.now.keys self.now.feeds.now.feeds packages.now before.now) }
        ensures counted { steps.new ≤ steps.old + pair_count (touched_packages self.now.touched.now.keys packages.now) self.now.feeds.now.feeds }
    {
        before.sorted_law();
        let before = before.as_slice();
        let found = rematch(alloc, packages, before, self.feeds, self.touched, steps)?;
        Findings::of(alloc, found)
    }

    /// The outcome of an image with packages that have a touched key, and its rows.
    fn matched(
        &self,
        alloc: Global,
        image: Digest,
        old: &Outcome,
        added: &mut Vec<Row>,
        steps: &mut Steps<L>,
    ) -> Result<Option<Outcome>, NoMemory>
        ensures value { IfOk result (λ new. unwrap_or new old.now ≡ rematched_at self.now.touched.now.keys self.now.feeds.now.feeds old.now) }
        ensures rows { OnOk result (added.new.items ≡ added.old.items ++ rows_at self.now.touched.now.keys self.now.feeds.now.feeds image old.now) }
        ensures counted { steps.new ≤ steps.old + rematch_pairs self.now.touched.now.keys self.now.feeds.now.feeds old.now }
    {
        let Outcome::Good { packages, findings } = old else {
            return Ok(None);
        };
        let packages = packages.share()?;
        let found = self.again(alloc, packages.value().as_slice(), findings, steps)?;
        add_rows(alloc, image, findings, &found, added)?;
        Ok(Some(Outcome::Good {
            packages,
            findings: found,
        }))
    }

    /// Whether an image has a package with a touched key.
    fn has_touched(&self, old: &Outcome) -> bool
        ensures { result ≡ has_touched self.now.touched.now.keys old.now }
    {
        match old {
            Outcome::Good { packages, .. } => {
                any_touched(self.touched, packages.value().as_slice())
            }
            _ => false,
        }
    }
}

impl<L: Ledger> Remake<Digest, Outcome> for Rematch<'_, L> {
    type Row = Row;

    type Tally = Steps<L>;

    ghost use Rattle.cv_core_outcome.specs.Update.{rematch_pairs, rematched_by, rows_by};

    ghost made = { λ maker _ old. rematched_by maker.touched.now.keys maker.feeds.now.feeds old };

    ghost added = { λ maker image old. rows_by maker.touched.now.keys maker.feeds.now.feeds image old };

    ghost cost = { λ maker _ old. rematch_pairs maker.touched.now.keys maker.feeds.now.feeds old };

    ghost costs = { λ steps. steps };

    fn remake(
        &self,
        alloc: Global,
        image: &Digest,
        old: &Outcome,
        added: &mut Vec<Row>,
        steps: &mut Steps<L>,
    ) -> Result<Option<Outcome>, NoMemory> {
        if !self.has_touched(old) {
            return Ok(None);
        }
        self.matched(alloc, *image, old, added, steps)
    }
}

/// Adds the rows of an image with these findings before and after an update.
fn add_rows(
    alloc: Global,
    image: Digest,
    before: &Findings,
    after: &Findings,
    added: &mut Vec<Row>,
) -> Result<(), NoMemory>
    ensures { OnOk result (added.new.items ≡ added.old.items ++ rows_of image before.now after.now) }
{
    before.sorted_law();
    after.sorted_law();
    let new = rows(alloc, image, before.as_slice(), after.as_slice())?;
    push_all(added, new)
}

fn push_all(added: &mut Vec<Row>, new: Seq<Row>) -> Result<(), NoMemory>
    ensures { OnOk result (added.new.items ≡ added.old.items ++ new) }
{
    for row in new.into_vec() {
        added.push(row)?;
    }
    Ok(())
}
