//! Outcomes of images whose layers are made in memory, and a feed that changes them.
use cv_advdb::{AdvError, Feeds, Touched};
use cv_base::{Advisory, Digest, NoMemory, RangeKind, Seq, Steps, Text};
use cv_core_outcome::{Outcome, outcome_of};
use cv_facts::LayerFacts;
use cv_tree::{Shared, Tree};
use std::alloc::Global;
use std::sync::ledger::Ledger;
use test_data::{Flaw, SampleDesk, advisory, facts_of_rows};

/// A layer that names the system.
const SYSTEM: [(&str, &str); 2] = [
    ("etc/", ""),
    ("etc/os-release", "ID=debian\nVERSION_ID=12\n"),
];

/// A layer with one package.
const CURL: [(&str, &str); 4] = [
    ("var/", ""),
    ("var/lib/", ""),
    ("var/lib/dpkg/", ""),
    (
        "var/lib/dpkg/status",
        "Package: curl\nStatus: install ok installed\nArchitecture: amd64\nVersion: 1\n",
    ),
];

type Known = LayerFacts<SampleDesk>;

/// The facts of layers, by their digests.
type Facts = Tree<Digest, Shared<Known>>;

/// The facts of both layers.
fn facts(alloc: Global, system: Digest, curl: Digest) -> Result<Facts, NoMemory> {
    let system = facts_of_rows(alloc, system, &SYSTEM)?;
    let curl = facts_of_rows(alloc, curl, &CURL)?;
    let facts = with(alloc, &Tree::new(), system)?;
    with(alloc, &facts, curl)
}

fn with(alloc: Global, facts: &Facts, known: Known) -> Result<Facts, NoMemory> {
    let layer = known.digest();
    facts.set(alloc, layer, Shared::of(alloc, known)?)
}

/// The digest whose bytes are all this one.
pub fn digest(byte: u8) -> Digest {
    Digest::of([byte; 32])
}

/// The outcomes without feeds: of image 1, with the package curl on Debian 12, and of image 2, which waits for a layer.
pub fn outcomes<L: Ledger>(
    alloc: Global,
    steps: &mut Steps<L>,
) -> Result<Tree<Digest, Outcome>, NoMemory> {
    let layers = [digest(0xaa), digest(0xbb)];
    let facts = facts(alloc, layers[0], layers[1])?;
    let feeds = Feeds::new(alloc, 1)?;
    let good = outcome_of(alloc, &facts, &feeds, &layers, &[None, None], steps)?;
    let pending = outcome_of(alloc, &facts, &feeds, &[digest(0xcc)], &[None], steps)?;
    let one = Tree::new().set(alloc, digest(1), good)?;
    one.set(alloc, digest(2), pending)
}

/// The package curl has a flaw, which is fixed in version 2.
const FLAW: Flaw<'static> = Flaw {
    id: "X-1",
    modified: "2024-01-01T00:00:00Z",
    withdrawn: false,
    ecosystem: "Debian:12",
    name: "curl",
    kind: RangeKind::Ecosystem,
    ranges: &[("0", Some("2"))],
};

/// One feed with the record of a flaw, and the key that it touches.
pub fn flawed_feeds(alloc: Global) -> Result<(Feeds, Touched), AdvError> {
    let mut feeds = Feeds::new(alloc, 1)?;
    let touched = feeds.replace(alloc, Text::of(alloc, "deb")?, records(alloc)?)?;
    Ok((feeds, touched))
}

fn records(alloc: Global) -> Result<Seq<Advisory>, NoMemory> {
    Ok(Seq::of(vec![in alloc; advisory(alloc, &FLAW)?]?))
}
