ghost use Rattle.std.specs.Prelude.{◌≡◌, IfOk, IfSome};

use cv_base::{NoMemory, Text};
use cv_osv::Texts;
use std::alloc::Global;

/// How many slots there are at first, and at most.
const FIRST_SLOTS: usize = 1_024;

const MOST_SLOTS: usize = 262_144;

/// The longest text that is kept, in bytes.
const LONGEST: usize = 64;

/// Texts that were made, so that those that come again share their bytes: ecosystems, names of packages, versions. A text is
/// looked for after the one before it first, since the versions of a package come again in one order, and then in its slot.
/// There are as many texts as slots at most.
#[derive(Drop)]
pub(crate) struct SharedTexts {
    made: Vec<Text>,
    /// The place of the last text of each slot.
    slots: Vec<usize>,
    /// The place after the last text that was asked for.
    next: usize,
}

impl SharedTexts {
    /// No text is kept yet.
    pub(crate) fn new(alloc: Global) -> Result<SharedTexts, NoMemory> {
        Ok(SharedTexts {
            made: Vec::new(alloc),
            slots: vec![in alloc; 0usize; FIRST_SLOTS]?,
            next: 0,
        })
    }

    /// The text at a place, if it is this one.
    fn known(&self, place: usize, text: &str) -> Result<Option<Text>, NoMemory>
        ensures { IfOk result (λ found. IfSome found (λ known. known ≡ text.now)) }
    {
        match self.made.as_slice().get(place) {
            Some(known) => if known.as_str() == text {
                Ok(Some(known.clone()?))
            } else {
                Ok(None)
            },
            None => Ok(None),
        }
    }

    /// The place of the last text of a slot.
    fn place(&self, slot: usize) -> usize {
        match self.slots.as_slice().get(slot) {
            Some(place) => *place,
            None => 0,
        }
    }

    /// Keeps a text that was made, unless there are too many.
    fn keep(&mut self, alloc: Global, slot: usize, text: Text) -> Result<(), NoMemory> {
        let place = self.made.len();
        if place >= MOST_SLOTS {
            return Ok(());
        }
        if slot < self.slots.len() {
            self.slots[slot] = place;
        }
        self.made.push(text)?;
        self.next = place.saturating_add(1);
        if place >= self.slots.len() {
            self.slots = slots_for(alloc, &self.made, self.slots.len().saturating_mul(4))?;
        }
        Ok(())
    }
}

impl Texts for SharedTexts {
    /// The text, which shares its bytes with an equal one that is kept. Else it takes memory, and is kept.
    fn text(&mut self, alloc: Global, text: &str) -> Result<Text, NoMemory> {
        if text.len() > LONGEST {
            return Text::of(alloc, text);
        }
        if let Some(known) = self.known(self.next, text)? {
            self.next = self.next.saturating_add(1);
            return Ok(known);
        }
        let slot = slot_of(text, self.slots.len());
        let place = self.place(slot);
        if let Some(known) = self.known(place, text)? {
            self.next = place.saturating_add(1);
            return Ok(known);
        }
        let made = Text::of(alloc, text)?;
        self.keep(alloc, slot, made.clone()?)?;
        Ok(made)
    }
}

/// A number of slots, with the places of these texts.
fn slots_for(alloc: Global, made: &[Text], count: usize) -> Result<Vec<usize>, NoMemory> {
    let mut slots = vec![in alloc; 0usize; count]?;
    for (place, text) in made.iter().enumerate() {
        let slot = slot_of(text.as_str(), count);
        if slot < slots.len() {
            slots[slot] = place;
        }
    }
    Ok(slots)
}

/// The slot of a text among this number of slots.
fn slot_of(text: &str, count: usize) -> usize {
    let mut sum = 0u64;
    for byte in text.as_bytes() {
        sum = sum.wrapping_mul(31).wrapping_add(*byte as u64);
    }
    let mixed = sum.wrapping_mul(0x9E37_79B9_7F4A_7C15) >> 32;
    mixed as usize % count.max(1)
}
