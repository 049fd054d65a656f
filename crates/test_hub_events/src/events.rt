ghost use Rattle.std.specs.Prelude.{◌≡◌, length, IfOk};
ghost use Rattle.cv_core.specs.Core.{IsSound, act_of};

use crate::draws::{IMAGES, draw, hash, layer};
use cv_base::{Advisory, Digest, Manifest, NoMemory, RangeKind, Seq};
use cv_core::Event;
use std::alloc::Global;
use test_data::{Flaw, SampleDesk, advisory, facts_of_rows, numbered};

/// Numbers of notifications that are acknowledged are below this one.
const NUMBERS: u64 = 400;

/// Generations on which feeds are patched are below this one.
const BASES: u64 = 24;

/// What each layer has: one package.
const ROWS: [(&str, &str); 3] = [
    ("node_modules/", ""),
    ("node_modules/x/", ""),
    (
        "node_modules/x/package.json",
        "{\"name\":\"x\",\"version\":\"1.0.0\"}",
    ),
];

/// The event of a line of a lane, which looks random and is the same in each run: of five lines one is about an image, one is about a feed
/// or a notification, and in the other three a worker claims a layer, and gives it back or has indexed it.
pub fn event(alloc: Global, lane: u8, line: u64) -> Result<Event<SampleDesk>, NoMemory>
    ensures { IfOk result (λ event. IsSound (act_of event)) }
{
    let worker = u32::from(lane);
    let layer = layer(draw(lane, line / 5));
    let draw = draw(lane, line);
    match line % 5 {
        0 => of_image(alloc, draw),
        1 => of_feed(alloc, draw),
        2 => Ok(Event::Claim(layer, worker)),
        3 => of_worker(alloc, draw, layer, worker),
        _ => indexed(alloc, layer, worker),
    }
}

/// An image is registered or dropped.
fn of_image(alloc: Global, draw: u64) -> Result<Event<SampleDesk>, NoMemory>
    ensures { IfOk result (λ event. IsSound (act_of event)) }
{
    match draw % 8 {
        0..=2 => Ok(Event::DropImage(hash(draw / 8))),
        _ => Ok(Event::Register(manifest(alloc, draw / 8)?)),
    }
}

/// A feed has other records or is patched, or a notification is acknowledged.
fn of_feed(alloc: Global, draw: u64) -> Result<Event<SampleDesk>, NoMemory>
    ensures { IfOk result (λ event. IsSound (act_of event)) }
{
    match draw % 8 {
        0..=2 => Ok(Event::Ack(draw / 8 % NUMBERS)),
        3..=4 => patch(alloc, draw / 8),
        _ => update(alloc, draw / 8),
    }
}

/// A worker gives a layer back or has indexed it.
fn of_worker(
    alloc: Global,
    draw: u64,
    layer: Digest,
    worker: u32,
) -> Result<Event<SampleDesk>, NoMemory>
    ensures { IfOk result (λ event. IsSound (act_of event)) }
{
    match draw % 8 {
        0 => Ok(Event::Fault(layer, worker)),
        1 => Ok(Event::Memory(layer, worker)),
        _ => indexed(alloc, layer, worker),
    }
}

/// A worker has indexed a layer.
fn indexed(alloc: Global, layer: Digest, worker: u32) -> Result<Event<SampleDesk>, NoMemory>
    ensures { IfOk result (λ event. IsSound (act_of event)) }
{
    Ok(Event::Indexed(facts_of_rows(alloc, layer, &ROWS)?, worker))
}

/// An image with one of two lists of layers. Sometimes it states a seal, which no layer has.
fn manifest(alloc: Global, draw: u64) -> Result<Manifest, NoMemory>
    ensures layers { IfOk result (λ manifest. length manifest.layers ≡ 3) }
    ensures seals { IfOk result (λ manifest. length manifest.seals ≡ 3) }
{
    let layers = vec![in alloc; layer(draw % IMAGES), layer(7), layer(draw / IMAGES % 2)]?;
    let seals = vec![in alloc; None, None, seal(draw / IMAGES / 2)]?;
    Ok(Manifest {
        hash: hash(draw),
        layers: Seq::of(layers),
        seals: Seq::of(seals),
    })
}

/// A seal that no layer has, at one of four draws.
fn seal(draw: u64) -> Option<Digest> {
    match draw % 4 {
        0 => Some(Digest::of([0; 32])),
        _ => None,
    }
}

/// One of three feeds, of which two may stand, has one of two records.
fn update(alloc: Global, draw: u64) -> Result<Event<SampleDesk>, NoMemory>
    ensures { IfOk result (λ event. IsSound (act_of event)) }
{
    let records = vec![in alloc; record(alloc, draw)?]?;
    Ok(Event::Update(numbered(alloc, "feed-", draw % 3)?, Seq::of(records)))
}

/// One of three feeds, if it has a generation that looks random, gets one of two records and loses the other one.
fn patch(alloc: Global, draw: u64) -> Result<Event<SampleDesk>, NoMemory>
    ensures { IfOk result (λ event. IsSound (act_of event)) }
{
    let records = vec![in alloc; record(alloc, draw)?]?;
    let remove = vec![in alloc; numbered(alloc, "X-", draw / 3 % 2)?]?;
    Ok(Event::Patch {
        feed: numbered(alloc, "feed-", draw % 3)?,
        base: draw / 24 % BASES,
        records: Seq::of(records),
        remove: Seq::of(remove),
    })
}

/// A record of the package of the layers: the next version is fixed, or an earlier one.
fn record(alloc: Global, draw: u64) -> Result<Advisory, NoMemory> {
    let flaw = Flaw {
        id: if draw / 3 % 2 == 0 { "X-0" } else { "X-1" },
        modified: "2024-01-01T00:00:00Z",
        withdrawn: false,
        ecosystem: "npm",
        name: "x",
        kind: RangeKind::Semver,
        ranges: if draw / 6 % 4 == 0 {
            &[("0", Some("0.9.0"))]
        } else {
            &[("0", Some("1.1.0"))]
        },
    };
    advisory(alloc, &flaw)
}
