ghost use Rattle.std.specs.Prelude.{◌≡◌, ◌<◌, ◌≤◌, IsTrue};
ghost use Rattle.cv_core.specs.Core.{IsSound, act_of};
ghost use Rattle.cv_core_machine.specs.declared.limits.TheConstants.{MAX_FEEDS, MAX_IMAGES};

use crate::service::layers::{digest, layers_of, seal_by};
use cv_base::{Digest, MAX_LAYERS, Manifest, NoMemory, Seq, Steps, Text};
use cv_core::{Core, Event, Limits, Reply};
use std::alloc::Global;
use std::marker::Brand;
use std::sync::ledger::{Blank, Ledger};
use test_data::{SampleDesk, facts_of};
use test_plain::{Patch, Step, Work, advisories, ids_of};

/// A core over the sample layers.
pub type Service = Core<SampleDesk>;

const MOST_EVENTS: u64 = 1 << 63;

/// Puts a new core in the place of the old one.
pub fn restart(alloc: Global, core: &mut Service, limits: Limits) -> Result<(), NoMemory>
    requires images { (1 ≤ limits.images) × (limits.images ≤ MAX_IMAGES) }
    requires feeds { (1 ≤ limits.feeds) × (limits.feeds ≤ MAX_FEEDS) }
{
    *core = Core::new(alloc, limits)?;
    Ok(())
}

/// Applies an event. There is no reply if a core does not take such an event: an image has 1 to 128 layers.
pub fn apply(alloc: Global, core: &mut Service, step: Step<'_>) -> Result<Option<Reply>, NoMemory> {
    let event = event_of(alloc, step)?;
    apply_counted::<Brand>(Blank::new(1), alloc, core, event)
}

fn apply_counted<L: Ledger>(
    blank: Blank,
    alloc: Global,
    core: &mut Service,
    event: Event<SampleDesk>,
) -> Result<Option<Reply>, NoMemory>
    requires name { blank.name ≡ L.name }
    requires parts { blank.parts ≡ L.parts }
    requires has_parts { 0 < L.parts }
{
    if core.count() >= MOST_EVENTS || !is_sound(&event) {
        return Ok(None);
    }
    let mut steps = Steps::<L>::open(blank);
    let reply = core.apply(alloc, event, &mut steps)?;
    Ok(Some(reply))
}

fn is_sound(event: &Event<SampleDesk>) -> bool
    ensures { IsTrue result → IsSound (act_of event.now) }
{
    match event {
        Event::Register(manifest) => {
            let layers = manifest.layers.as_slice();
            let seals = manifest.seals.as_slice();
            !layers.is_empty() && layers.len() <= MAX_LAYERS && seals.len() == layers.len()
        }
        _ => true,
    }
}

fn event_of(alloc: Global, step: Step<'_>) -> Result<Event<SampleDesk>, NoMemory> {
    Ok(match step {
        Step::Register {
            image,
            layers,
            seals,
        } => Event::Register(manifest(alloc, image, layers, seals)?),
        Step::DropImage(image) => Event::DropImage(digest(image)),
        Step::Claim(work) => Event::Claim(digest(work.layer), work.worker),
        Step::Indexed(work) => indexed(alloc, work)?,
        Step::Fault(work) => Event::Fault(digest(work.layer), work.worker),
        Step::Memory(work) => Event::Memory(digest(work.layer), work.worker),
        Step::Update { feed, code } => update(alloc, feed, code)?,
        Step::Patch(change) => patch(alloc, change)?,
        Step::Ack(number) => Event::Ack(number),
    })
}

fn indexed(alloc: Global, work: Work) -> Result<Event<SampleDesk>, NoMemory> {
    let layers = layers_of(alloc, work.layer)?;
    let facts = facts_of(alloc, digest(work.layer), layers)?;
    Ok(Event::Indexed(facts, work.worker))
}

fn update(alloc: Global, feed: &str, code: u32) -> Result<Event<SampleDesk>, NoMemory> {
    let name = Text::of(alloc, feed)?;
    let records = advisories(alloc, code)?;
    Ok(Event::Update(name, Seq::of(records)))
}

fn patch(alloc: Global, change: Patch) -> Result<Event<SampleDesk>, NoMemory> {
    Ok(Event::Patch {
        feed: Text::of(alloc, change.feed)?,
        base: change.base,
        records: Seq::of(advisories(alloc, change.code)?),
        remove: Seq::of(ids_of(alloc, change.gone)?),
    })
}

/// The manifest of an image of the layers of these letters, with the seals of these signs.
fn manifest(alloc: Global, image: u8, letters: &[u8], signs: &[u8]) -> Result<Manifest, NoMemory> {
    let signs = without_blanks(alloc, signs)?;
    let mut layers = Vec::new(alloc);
    let mut seals = Vec::new(alloc);
    for (index, letter) in without_blanks(alloc, letters)?.iter().enumerate() {
        layers.push(digest(*letter))?;
        seals.push(seal_at(&signs, index, *letter))?;
    }
    Ok(Manifest {
        hash: digest(image),
        layers: Seq::of(layers),
        seals: Seq::of(seals),
    })
}

fn without_blanks(alloc: Global, letters: &[u8]) -> Result<Vec<u8>, NoMemory> {
    let mut others = Vec::new(alloc);
    for letter in letters {
        if *letter != b' ' {
            others.push(*letter)?;
        }
    }
    Ok(others)
}

/// The seal by the sign at an index. A layer without a sign has no stated seal.
fn seal_at(signs: &[u8], index: usize, letter: u8) -> Option<Digest> {
    match signs.get(index) {
        Some(sign) => seal_by(*sign, letter),
        None => None,
    }
}
