use crate::findings::{
    Change, FEEDS, Fault, Feed, Found, Lines, changes_of, contents_of, fault_of, patched,
};
use crate::machine::letters::{IMAGES, LAYERS};
use crate::machine::step::{Patch, Step, Work};
use crate::machine::table::Table;
use cv_base::{NoMemory, Reason};
use cv_core_machine::{Limits, Status};
use std::alloc::Global;

/// The layers of a registered image, and the signs of their seals, if one is stated.
#[derive(Clone, Copy, PartialEq)]
struct Registered {
    layers: &'static [u8],
    seals: &'static [u8],
}

/// A row of the notification of a number.
#[derive(Clone, Copy)]
struct NumberedRow {
    number: u64,
    image: u8,
    reason: Reason,
    found: Found<'static>,
}

/// The machine as it is defined, on plain lists. It keeps no findings: each report looks at all packages of the image with all
/// records anew.
#[derive(Drop)]
pub struct Machine {
    limits: Limits,
    count: u64,
    images: Table<Registered>,
    layers: Table<Status>,
    feeds: Vec<Feed>,
    generation: u64,
    rows: Vec<NumberedRow>,
}

impl Machine {
    /// A machine without images, feeds and notifications.
    pub fn new(alloc: Global, limits: Limits) -> Result<Machine, NoMemory> {
        Ok(Machine {
            limits,
            count: 0,
            images: Table::of(alloc, &IMAGES)?,
            layers: Table::of(alloc, &LAYERS)?,
            feeds: absent_feeds(alloc)?,
            generation: 0,
            rows: Vec::new(alloc),
        })
    }

    /// Does an event, and writes the reply and the state after it.
    pub fn report_step(
        &mut self,
        alloc: Global,
        step: Step<'static>,
        out: &mut Lines,
    ) -> Result<(), NoMemory> {
        out.word(" -> ");
        match step {
            Step::Register {
                image,
                layers,
                seals,
            } => self.register(image, Registered { layers, seals }, out),
            Step::DropImage(image) => out.word(self.drop_image(image)),
            Step::Claim(work) => out.word(self.claim(work)),
            Step::Indexed(work) => out.word(self.finish(work, Status::Indexed, "entered")),
            Step::Fault(work) | Step::Memory(work) => {
                out.word(self.finish(work, Status::Queued, "requeued"))
            }
            Step::Update { feed, code } => self.update(alloc, feed, code, out)?,
            Step::Patch(patch) => self.patch(alloc, patch, out)?,
            Step::Ack(number) => out.word(self.ack(number)),
        }
        self.count = self.count.saturating_add(1);
        self.show(alloc, out);
        Ok(())
    }

    fn register(&mut self, letter: u8, new: Registered, out: &mut Lines) {
        if let Some(kept) = self.images.get(letter) {
            if kept == new {
                return out.word("already");
            }
            return out.layers("conflict, kept", kept.layers, kept.seals);
        }
        if self.registered() >= self.limits.images {
            return out.word("too_many_images");
        }
        self.images.set(letter, Some(new));
        for layer in new.layers {
            if self.status(*layer).is_none() {
                self.layers.set(*layer, Some(Status::Queued));
            }
        }
        out.word("registered");
    }

    fn drop_image(&mut self, letter: u8) -> &'static str {
        let Some(dropped) = self.images.get(letter) else {
            return "not_registered";
        };
        self.images.set(letter, None);
        for layer in dropped.layers {
            if !self.is_named(*layer) && !self.is_claimed(*layer) {
                self.layers.set(*layer, None);
            }
        }
        "dropped"
    }

    fn claim(&mut self, work: Work) -> &'static str {
        match self.status(work.layer) {
            Some(Status::Queued) => {
                self.layers
                    .set(work.layer, Some(Status::Claimed(work.worker)));
                "claimed"
            }
            Some(Status::Claimed(_) | Status::Indexed) => "taken",
            None => "unwanted",
        }
    }

    /// A worker is done with a layer, or gives it back.
    fn finish(&mut self, work: Work, next: Status, reply: &'static str) -> &'static str {
        if self.status(work.layer) != Some(Status::Claimed(work.worker)) {
            return "not_claimed";
        }
        if !self.is_named(work.layer) {
            self.layers.set(work.layer, None);
            return "discarded";
        }
        self.layers.set(work.layer, Some(next));
        reply
    }

    fn update(
        &mut self,
        alloc: Global,
        feed: &'static str,
        code: u32,
        out: &mut Lines,
    ) -> Result<(), NoMemory> {
        if self.is_full(feed) {
            out.word("too_many_feeds");
            return Ok(());
        }
        self.set_feed(alloc, feed, code, out)
    }

    fn patch(&mut self, alloc: Global, patch: Patch, out: &mut Lines) -> Result<(), NoMemory> {
        let Some(feed) = self.feed(patch.feed) else {
            out.word("no_feed");
            return Ok(());
        };
        if patch.base != feed.since {
            out.number("stale_base, kept ", feed.since);
            return Ok(());
        }
        let code = patched(feed.code, patch.code, patch.gone);
        self.set_feed(alloc, feed.name, code, out)
    }

    /// The feed of a name, if it stands.
    pub fn feed(&self, name: &str) -> Option<Feed> {
        for feed in &self.feeds {
            if feed.stands && feed.name == name {
                return Some(*feed);
            }
        }
        None
    }

    /// Gives a feed the records of a number, and says so.
    fn set_feed(
        &mut self,
        alloc: Global,
        feed: &'static str,
        code: u32,
        out: &mut Lines,
    ) -> Result<(), NoMemory> {
        self.generation = self.generation.saturating_add(1);
        let before = self.feeds.clone()?;
        for other in self.feeds.iter_mut() {
            if other.name == feed {
                other.stands = true;
                other.code = code;
                other.since = self.generation;
            }
        }
        self.add_rows(alloc, &before)?;
        out.updated(self.generation, self.rows_of(self.generation));
        Ok(())
    }

    /// Whether a feed does not stand, and as many stand as may be.
    fn is_full(&self, name: &str) -> bool {
        if self.feed(name).is_some() {
            return false;
        }
        let mut count: u32 = 0;
        for feed in &self.feeds {
            if feed.stands {
                count = count.saturating_add(1);
            }
        }
        count >= self.limits.feeds
    }

    /// The rows of all images whose layers are indexed and which are good.
    fn add_rows(&mut self, alloc: Global, before: &[Feed]) -> Result<(), NoMemory> {
        for letter in IMAGES {
            if let Some(Registered { layers, seals }) = self.images.get(letter)
                && self.pending(layers).is_none()
                && fault_of(layers, seals).is_none()
            {
                self.add_image(alloc, letter, layers, before)?;
            }
        }
        Ok(())
    }

    /// The rows of an image.
    fn add_image(
        &mut self,
        alloc: Global,
        image: u8,
        layers: &[u8],
        before: &[Feed],
    ) -> Result<(), NoMemory> {
        let number = self.generation;
        for change in changes_of(alloc, contents_of(layers), before, self.feeds.as_slice())? {
            if let Some((reason, found)) = change.row() {
                self.rows.push(NumberedRow {
                    number,
                    image,
                    reason,
                    found,
                })?;
            }
        }
        Ok(())
    }

    fn ack(&mut self, number: u64) -> &'static str {
        if !self.has_notification(number) {
            return "no_notification";
        }
        self.rows.retain(|row| row.number != number);
        "acked"
    }

    /// Whether there is a notification of a number.
    pub fn has_notification(&self, number: u64) -> bool {
        self.rows_of(number) > 0
    }

    /// How many rows the notification of a number has.
    fn rows_of(&self, number: u64) -> u64 {
        let mut count: u64 = 0;
        for row in &self.rows {
            if row.number == number {
                count = count.saturating_add(1);
            }
        }
        count
    }

    /// The state after an event.
    fn show(&self, alloc: Global, out: &mut Lines) {
        out.number(" | events ", self.count);
        self.show_queued(out);
        self.show_heads(out);
        for (image, registered) in self.images.rows() {
            if let Some(registered) = registered {
                self.show_report(alloc, *image, *registered, out);
            }
        }
    }

    /// The layers that wait for a worker, in ascending order.
    fn show_queued(&self, out: &mut Lines) {
        out.word(" | queued");
        for (layer, status) in self.layers.rows() {
            if *status == Some(Status::Queued) {
                out.letter(" ", *layer);
            }
        }
    }

    /// The notifications. Rows are kept in ascending order of their numbers.
    fn show_heads(&self, out: &mut Lines) {
        out.word(" | notices");
        let mut last = 0;
        for row in &self.rows {
            if row.number != last {
                out.head(row.number, self.rows_of(row.number));
                last = row.number;
            }
        }
    }

    fn show_report(&self, alloc: Global, image: u8, registered: Registered, out: &mut Lines) {
        let Registered { layers, seals } = registered;
        if let Some(layer) = self.pending(layers) {
            return out.pending(image, layer);
        }
        if let Some(fault) = fault_of(layers, seals) {
            return show_fault(out, image, fault);
        }
        out.good(image, self.generation);
        let feeds = self.feeds.as_slice();
        match changes_of(alloc, contents_of(layers), feeds, feeds) {
            Ok(changes) => show_findings(out, &changes),
            Err(NoMemory) => out.fail(),
        }
    }

    /// The number of the last notification, or 0.
    pub fn last(&self) -> u64 {
        match self.rows.last() {
            Some(row) => row.number,
            None => 0,
        }
    }

    /// All rows of the notification of a number, as they stand on one page.
    pub fn show_page(&self, out: &mut Lines, number: u64) {
        if !self.has_notification(number) {
            return out.word(" | no_notification");
        }
        out.word(" | pages: 1");
        for row in &self.rows {
            if row.number == number {
                out.row(row.image, row.reason, row.found);
            }
        }
    }

    /// How many images are registered.
    fn registered(&self) -> u32 {
        let mut count: u32 = 0;
        for (_, registered) in self.images.rows() {
            if registered.is_some() {
                count = count.saturating_add(1);
            }
        }
        count
    }

    /// The first of some layers that is not indexed.
    fn pending(&self, layers: &[u8]) -> Option<u8> {
        for layer in layers {
            if self.status(*layer) != Some(Status::Indexed) {
                return Some(*layer);
            }
        }
        None
    }

    /// Whether a registered image has the layer.
    fn is_named(&self, layer: u8) -> bool {
        for (_, registered) in self.images.rows() {
            if let Some(registered) = registered
                && registered.layers.contains(&layer)
            {
                return true;
            }
        }
        false
    }

    fn is_claimed(&self, layer: u8) -> bool {
        matches!(self.status(layer), Some(Status::Claimed(_)))
    }

    /// The status of a layer, if it is in the table.
    pub fn status(&self, layer: u8) -> Option<Status> {
        self.layers.get(layer)
    }
}

/// All feeds that there can be, none of which stands.
fn absent_feeds(alloc: Global) -> Result<Vec<Feed>, NoMemory> {
    let mut feeds = Vec::new(alloc);
    for name in FEEDS {
        feeds.push(Feed {
            name,
            stands: false,
            code: 0,
            since: 0,
        })?;
    }
    Ok(feeds)
}

fn show_findings(out: &mut Lines, changes: &[Change]) {
    for change in changes {
        if let Some(found) = change.after {
            out.finding(found);
        }
    }
}

fn show_fault(out: &mut Lines, image: u8, fault: Fault) {
    match fault {
        Fault::NoLayer(layer) => out.bad(image, " bad: no layer at ", u64::from(layer)),
        Fault::BadTree(layer) => out.bad(image, " bad: no good tree at ", u64::from(layer)),
        Fault::BadSeal(layer, found) => out.bad_seal(image, u64::from(layer), found),
        Fault::BadStatus => out.bad(image, " bad: status file at line ", 3),
    }
}
