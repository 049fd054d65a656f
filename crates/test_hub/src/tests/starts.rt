ghost use Rattle.std.specs.Prelude.{◌≡◌, [], length, IfOk};
ghost use Rattle.cv_hub.specs.Seats.{AreFresh};
ghost use Rattle.test_hub.specs.Layers.{layer_rows};
ghost use Rattle.test_hub_events.specs.Core.{IsSound, act_of, opened};

use crate::tests::records::{image, layer};
use core::mem::replace_with;
use cv_base::{Digest, Kind, NoMemory, RangeKind, Seq, Text};
use cv_core::{Core, Event, Limits};
use cv_desk::{Table, TableDesk, TableEntry, entry};
use cv_desk_wrappers::Faulty;
use cv_facts::{IndexError, index_layer};
use cv_hub::{Blank, Hub, Identity, Seat, View};
use cv_keep::{Journal, MemDisk};
use cv_keep_replay::{ReplayError, Resumed, replay};
use std::alloc::Global;
use std::marker::Brand;
use std::sync::Wait;
use std::test::Fail;
use test_data::{Flaw, advisory, unsealed};
use test_hub_events::{By, entered};

pub const LIMITS: Limits = Limits {
    images: 1,
    feeds: 1,
};

static ROWS: [TableEntry; 3] = [
    entry!("node_modules"),
    entry!("node_modules/x"),
    entry!(
        "node_modules/x/package.json",
        b"{\"name\":\"x\",\"version\":\"1.0.0\"}"
    ),
];

/// One layer, for all digests.
pub struct OneLayer;

impl Table for OneLayer {
    ghost rows = { layer_rows };

    fn layer(_digest: &Digest) -> Option<&'static [TableEntry]> {
        Some(&ROWS)
    }
}

pub type LayerDesk = Faulty<TableDesk<OneLayer>>;

/// How a start from a file ends, and what the report of the image is then.
#[derive(Drop)]
pub struct Start {
    pub end: Result<Resumed, ReplayError>,
    pub report: String,
}

/// Goes on from a file at a new hub with one seat, over a desk of which the calls with these numbers fail.
pub fn started<W: Wait>(
    rt: &W,
    alloc: Global,
    disk: &mut MemDisk,
    fails: Seq<u64>,
) -> Result<Start, Fail> {
    let core = Core::new(alloc, LIMITS)?;
    start_hub::<Brand, _>(rt, alloc, Blank::new(1), core, disk, fails)
}

fn start_hub<L: Identity, W: Wait>(
    rt: &W,
    alloc: Global,
    blank: Blank,
    core: Core<LayerDesk>,
    disk: &mut MemDisk,
    fails: Seq<u64>,
) -> Result<Start, Fail>
    requires name { blank.name ≡ L.name }
    requires parts { (blank.parts ≡ L.parts) × (L.parts ≡ 1) }
    requires book { blank.book ≡ L.book }
    requires core { core ≡ opened L.limits }
{
    let (mut hub, mut seats) = Hub::<LayerDesk, L>::start(rt, alloc, blank, core, 1)?;
    let start = go_on(rt, alloc, disk, fails, &mut hub, seats.as_mut_slice());
    hub.end(rt, seats);
    start
}

/// Opens the file, and goes on from it.
fn go_on<L: Identity, W: Wait>(
    rt: &W,
    alloc: Global,
    disk: &mut MemDisk,
    fails: Seq<u64>,
    hub: &mut Hub<LayerDesk, L>,
    seats: &mut [Seat<LayerDesk, L>],
) -> Result<Start, Fail>
    requires hub { hub.old ≡ [] }
    requires all { (length seats.old ≡ 1) × (L.parts ≡ 1) }
    requires fresh { AreFresh 0 seats.old }
{
    let journal = Journal::open(disk)?;
    let mut desk = Faulty::new(TableDesk::new(), fails);
    let end = replay(rt, alloc, &journal, disk, hub, seats, &mut desk);
    let report = match end {
        Ok(_) => reported(rt, alloc, seats)?,
        Err(_) => String::new(alloc),
    };
    Ok(Start { end, report })
}

/// The report of the image at the first seat.
fn reported<L: Identity, W: Wait>(
    rt: &W,
    alloc: Global,
    seats: &mut [Seat<LayerDesk, L>],
) -> Result<String, NoMemory> {
    match seats.first_mut() {
        Some(seat) => replace_with(seat, (rt, alloc), report_from),
        None => Ok(String::new(alloc)),
    }
}

fn report_from<L: Identity, W: Wait>(
    seat: Seat<LayerDesk, L>,
    with: (&W, Global),
) -> (Seat<LayerDesk, L>, Result<String, NoMemory>) {
    let (rt, alloc) = with;
    let view = entered(rt, seat);
    let report = report_in(alloc, &view);
    (view.close(), report)
}

fn report_in<L: Identity>(alloc: Global, view: &View<LayerDesk, L>) -> Result<String, NoMemory> {
    Ok(format!(in alloc; "{:?}", view.report(&image()))?)
}

/// The report of the image at a hub to which its registration, the work on its layer and the update are submitted.
pub fn report_of_submitted<W: Wait>(rt: &W, alloc: Global) -> Result<String, Fail> {
    let core = Core::new(alloc, LIMITS)?;
    Ok(submit::<Brand, _>(rt, alloc, Blank::new(1), core)?)
}

fn submit<L: Identity, W: Wait>(
    rt: &W,
    alloc: Global,
    blank: Blank,
    core: Core<LayerDesk>,
) -> Result<String, NoMemory>
    requires name { blank.name ≡ L.name }
    requires parts { (blank.parts ≡ L.parts) × (L.parts ≡ 1) }
    requires book { blank.book ≡ L.book }
    requires core { core ≡ opened L.limits }
{
    let (hub, mut seats) = Hub::<LayerDesk, L>::start(rt, alloc, blank, core, 1)?;
    let report = submit_and_report(rt, alloc, &hub, seats.as_mut_slice());
    hub.end(rt, seats);
    report
}

fn submit_and_report<L: Identity, W: Wait>(
    rt: &W,
    alloc: Global,
    hub: &Hub<LayerDesk, L>,
    seats: &mut [Seat<LayerDesk, L>],
) -> Result<String, NoMemory> {
    if let Some(seat) = seats.first_mut() {
        submit_all(rt, alloc, hub, seat)?;
    }
    reported(rt, alloc, seats)
}

/// Submits the registration of the image, the work on its layer, and an update with a record of its package.
pub fn submit_all<L: Identity, W: Wait>(
    rt: &W,
    alloc: Global,
    hub: &Hub<LayerDesk, L>,
    seat: &mut Seat<LayerDesk, L>,
) -> Result<(), NoMemory> {
    let by = By::Lane { lane: 0, line: 1 };
    let layers = vec![in alloc; layer()]?;
    let manifest = unsealed(alloc, image(), layers)?;
    hub.submit(rt, alloc, seat, by, Event::Register(manifest))?;
    hub.submit(rt, alloc, seat, By::Worker(0), Event::Claim(layer(), 0))?;
    hub.submit(rt, alloc, seat, By::Worker(0), indexed(alloc)?)?;
    hub.submit(rt, alloc, seat, by, update(alloc)?)?;
    Ok(())
}

fn indexed(alloc: Global) -> Result<Event<LayerDesk>, NoMemory>
    ensures { IfOk result (λ event. IsSound (act_of event)) }
{
    let mut desk = Faulty::new(TableDesk::new(), Seq::of(Vec::new(alloc)));
    match index_layer(alloc, &mut desk, layer()) {
        Ok(facts) => Ok(Event::Indexed(facts, 0)),
        Err(IndexError::DeskFault | IndexError::NoMemory) => Err(NoMemory),
    }
}

fn update(alloc: Global) -> Result<Event<LayerDesk>, NoMemory>
    ensures { IfOk result (λ event. IsSound (act_of event)) }
{
    let flaw = Flaw {
        id: "X-1",
        modified: "2024-01-01T00:00:00Z",
        withdrawn: false,
        ecosystem: "npm",
        name: "x",
        kind: RangeKind::Semver,
        ranges: &[("0", Some("1.1.0"))],
    };
    let records = vec![in alloc; advisory(alloc, &flaw)?]?;
    Ok(Event::Update(Text::of(alloc, "npm")?, Seq::of(records)))
}
