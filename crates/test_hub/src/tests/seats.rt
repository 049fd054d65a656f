ghost use Rattle.std.specs.Prelude.{◌≡◌, length, IfOk};
ghost use Rattle.cv_core.specs.Core.{IsSound, act_of};
ghost use Rattle.test_hub_events.specs.Core.{opened};

use core::mem::replace_with;
use cv_base::{Digest, Manifest, NoMemory, Seq};
use cv_core::{Core, Event, ReportRefusal};
use cv_hub::{Blank, Hub, Identity, Note, Seat, View};
use std::alloc::Global;
use std::marker::Brand;
use std::sync::Wait;
use std::test::Fail;
use test_hub_events::{By, EventEntry, Reply, SampleDesk, entered, hash, new_core, taken};

/// What two seats do.
#[derive(Clone, Copy, Debug)]
enum Scene {
    /// The first one registers the image and views it, and the second one learns the receipt's note.
    Learn,
    /// The first one registers the image. The second one views it, and again after all events were taken and it learned a note.
    View,
    /// The second one submits an event and views it. Then the first one registers the image, and the second one views it.
    ViewAgain,
}

/// What came of a scene: the numbers and replies of the receipts, what each view showed, how many events the second seat has seen in the
/// end, how often it was refused a view, and the entries that both took.
#[derive(Drop)]
struct Seen {
    receipts: Vec<(u64, Reply)>,
    views: Vec<Glance>,
    seen: u64,
    refused: u64,
    entries: Vec<EventEntry>,
}

/// How many events a view shows, and what it says of the image.
#[derive(Clone, Copy, Debug, PartialEq, Eq)]
struct Glance {
    front: u64,
    image: Image,
}

/// What there is instead of a report of the image: it is not registered, or waits for its layer. Or there is one.
#[derive(Clone, Copy, Debug, PartialEq, Eq)]
enum Image {
    Unknown,
    Pending,
    Other,
}

#[test]
fn a_seat_has_seen_the_events_of_a_note_that_it_learned(rt: HostRuntime) -> Result<(), Fail> {
    let core = new_core(rt.alloc())?;
    let seen = play::<Brand, _>(&rt, rt.alloc(), Blank::new(2), core, Scene::Learn)?;
    let receipts = [(1, Reply::Registered)];
    assert_eq!(rt; seen.receipts.as_slice(), receipts.as_slice());
    let views = [shown(1, Image::Pending)];
    assert_eq!(rt; seen.views.as_slice(), views.as_slice());
    assert_eq!(rt; seen.seen, 1);
    assert_eq!(rt; seen.entries.len(), 1);
    Ok(())
}

#[test]
fn a_view_shows_what_another_seat_submitted(rt: HostRuntime) -> Result<(), Fail> {
    let core = new_core(rt.alloc())?;
    let seen = play::<Brand, _>(&rt, rt.alloc(), Blank::new(2), core, Scene::View)?;
    let views = [shown(1, Image::Pending), shown(1, Image::Pending)];
    assert_eq!(rt; seen.views.as_slice(), views.as_slice());
    assert_eq!(rt; seen.refused, 0);
    assert_eq!(rt; seen.entries.len(), 1);
    Ok(())
}

#[test]
fn a_seat_that_viewed_before_is_shown_what_came_since(rt: HostRuntime) -> Result<(), Fail> {
    let core = new_core(rt.alloc())?;
    let seen = play::<Brand, _>(&rt, rt.alloc(), Blank::new(2), core, Scene::ViewAgain)?;
    let replies = [(1, Reply::NotRegistered), (2, Reply::Registered)];
    assert_eq!(rt; seen.receipts.as_slice(), replies.as_slice());
    let views = [shown(1, Image::Unknown), shown(2, Image::Pending)];
    assert_eq!(rt; seen.views.as_slice(), views.as_slice());
    assert_eq!(rt; seen.refused, 0);
    Ok(())
}

fn shown(front: u64, image: Image) -> Glance {
    Glance { front, image }
}

/// Two seats of a new hub play a scene.
fn play<L: Identity, W: Wait>(
    rt: &W,
    alloc: Global,
    blank: Blank,
    core: Core<SampleDesk>,
    scene: Scene,
) -> Result<Seen, NoMemory>
    requires name { blank.name ≡ L.name }
    requires parts { (blank.parts ≡ L.parts) × (L.parts ≡ 2) }
    requires book { blank.book ≡ L.book }
    requires core { core ≡ opened L.limits }
{
    let (mut hub, mut seats) = Hub::<SampleDesk, L>::start(rt, alloc, blank, core, 2)?;
    let seen = played(rt, alloc, &mut hub, seats.as_mut_slice(), scene);
    hub.end(rt, seats);
    seen
}

/// What came of a scene at a hub with two seats.
fn played<L: Identity, W: Wait>(
    rt: &W,
    alloc: Global,
    hub: &mut Hub<SampleDesk, L>,
    seats: &mut [Seat<SampleDesk, L>],
    scene: Scene,
) -> Result<Seen, NoMemory>
    requires parts { L.parts ≡ 2 }
{
    let mut seen = Seen {
        receipts: Vec::new(alloc),
        views: Vec::new(alloc),
        seen: 0,
        refused: 0,
        entries: Vec::new(alloc),
    };
    match scene {
        Scene::Learn => learn(rt, alloc, hub, seats, &mut seen)?,
        Scene::View => view_and_take(rt, alloc, hub, seats, &mut seen)?,
        Scene::ViewAgain => view_again(rt, alloc, hub, seats, &mut seen)?,
    }
    if let Some(second) = seats.get(1) {
        seen.seen = second.seen().len();
        seen.refused = second.refused();
    }
    Ok(seen)
}

fn learn<L: Identity, W: Wait>(
    rt: &W,
    alloc: Global,
    hub: &mut Hub<SampleDesk, L>,
    seats: &mut [Seat<SampleDesk, L>],
    seen: &mut Seen,
) -> Result<(), NoMemory>
    requires parts { L.parts ≡ 2 }
{
    let note = register(rt, alloc, hub, seats, seen)?;
    view(rt, seats, 0, seen)?;
    second_learns(seats, note);
    seen.entries = taken(rt, hub, seats, 2)?;
    Ok(())
}

fn view_and_take<L: Identity, W: Wait>(
    rt: &W,
    alloc: Global,
    hub: &mut Hub<SampleDesk, L>,
    seats: &mut [Seat<SampleDesk, L>],
    seen: &mut Seen,
) -> Result<(), NoMemory>
    requires parts { L.parts ≡ 2 }
{
    let _ = register(rt, alloc, hub, seats, seen)?;
    view(rt, seats, 1, seen)?;
    seen.entries = taken(rt, hub, seats, 2)?;
    second_learns(seats, hub.note(rt));
    view(rt, seats, 1, seen)
}

fn view_again<L: Identity, W: Wait>(
    rt: &W,
    alloc: Global,
    hub: &Hub<SampleDesk, L>,
    seats: &mut [Seat<SampleDesk, L>],
    seen: &mut Seen,
) -> Result<(), NoMemory> {
    let _ = submit(rt, alloc, hub, seats, 1, Event::DropImage(hash(2)), seen)?;
    view(rt, seats, 1, seen)?;
    let _ = register(rt, alloc, hub, seats, seen)?;
    view(rt, seats, 1, seen)
}

/// The first seat registers the image.
fn register<L: Identity, W: Wait>(
    rt: &W,
    alloc: Global,
    hub: &Hub<SampleDesk, L>,
    seats: &mut [Seat<SampleDesk, L>],
    seen: &mut Seen,
) -> Result<Note<SampleDesk, L>, NoMemory> {
    let event = Event::Register(manifest(alloc)?);
    submit(rt, alloc, hub, seats, 0, event, seen)
}

/// A seat submits an event.
fn submit<L: Identity, W: Wait>(
    rt: &W,
    alloc: Global,
    hub: &Hub<SampleDesk, L>,
    seats: &mut [Seat<SampleDesk, L>],
    index: usize,
    event: Event<SampleDesk>,
    seen: &mut Seen,
) -> Result<Note<SampleDesk, L>, NoMemory>
    requires sound { IsSound (act_of event) }
{
    let Some(seat) = seats.get_mut(index) else {
        return Err(NoMemory);
    };
    let by = By::Lane { lane: 0, line: 1 };
    let receipt = hub.submit(rt, alloc, seat, by, event)?;
    seen.receipts.push((receipt.number, receipt.reply))?;
    Ok(receipt.note)
}

/// A seat views the hub.
fn view<L: Identity, W: Wait>(
    rt: &W,
    seats: &mut [Seat<SampleDesk, L>],
    index: usize,
    seen: &mut Seen,
) -> Result<(), NoMemory> {
    let Some(seat) = seats.get_mut(index) else {
        return Err(NoMemory);
    };
    seen.views.push(replace_with(seat, rt, shown_from))?;
    Ok(())
}

fn second_learns<L: Identity>(seats: &mut [Seat<SampleDesk, L>], note: Note<SampleDesk, L>) {
    if let Some(second) = seats.get_mut(1) {
        second.learn(note);
    }
}

/// What the next view of a seat shows.
fn shown_from<L: Identity, W: Wait>(
    seat: Seat<SampleDesk, L>,
    rt: &W,
) -> (Seat<SampleDesk, L>, Glance) {
    let view = entered(rt, seat);
    let shown = shown(view.front(), image_in(&view));
    (view.close(), shown)
}

fn image_in<L: Identity>(view: &View<SampleDesk, L>) -> Image {
    match view.report(&hash(1)) {
        Err(ReportRefusal::NotRegistered) => Image::Unknown,
        Err(ReportRefusal::Pending(ref found)) if *found == layer() => Image::Pending,
        _ => Image::Other,
    }
}

/// An image of one layer.
fn manifest(alloc: Global) -> Result<Manifest, NoMemory>
    ensures layers { IfOk result (λ manifest. length manifest.layers ≡ 1) }
    ensures seals { IfOk result (λ manifest. length manifest.seals ≡ 1) }
{
    Ok(Manifest {
        hash: hash(1),
        layers: Seq::of(vec![in alloc; layer()]?),
        seals: Seq::of(vec![in alloc; None]?),
    })
}

/// The layer of the image.
fn layer() -> Digest {
    Digest::of([100; 32])
}
