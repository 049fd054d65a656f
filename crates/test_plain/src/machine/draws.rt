ghost use Rattle.std.specs.Prelude.{◌<◌};

use crate::findings::{CODES, FEEDS};
use crate::machine::letters::{IMAGES, LAYERS};
use crate::machine::plain::Machine;
use crate::machine::step::{Patch, Step, Work};
use cv_core_machine::Status;

/// An image that is registered, with the layers that it has mostly, the signs of the seals that it states for them sometimes, and the
/// layers that it has sometimes: a letter each, the base first.
struct Sample {
    letter: u8,
    usual: &'static [u8],
    seals: &'static [u8],
    other: &'static [u8],
}

macro_rules! sample {
    ($letter:literal, $usual:literal, $seals:literal, $other:literal) => {
        Sample {
            letter: $letter,
            usual: $usual,
            seals: $seals,
            other: $other,
        }
    };
}

static SAMPLES: [Sample; 6] = [
    sample!(b'F', b"d", b"!", b"du"),
    sample!(b'B', b"dn", b"==", b"n"),
    sample!(b'E', b"dnu", b".=!", b"ddn"),
    sample!(b'A', b"dnwu", b"=..=", b"sw"),
    sample!(b'D', b"ds", b"==", b"dsu"),
    sample!(b'C', b"dnb", b"!=.", b"nm"),
];

const WORKERS: u64 = 3;

/// Numbers of notifications that are acknowledged are below this one.
const NUMBERS: u64 = 24;

/// Events that look random and are the same in each run, by a linear congruence.
#[derive(Clone, Copy)]
pub struct Draws {
    state: u64,
}

impl Draws {
    /// The events that follow a seed.
    pub fn new(seed: u64) -> Draws {
        Draws { state: seed }
    }

    /// The next number below a count.
    fn below(&mut self, count: u64) -> u64
        requires { 0 < count }
        ensures { result < count }
    {
        self.state = self
            .state
            .wrapping_mul(6_364_136_223_846_793_005)
            .wrapping_add(1_442_695_040_888_963_407);
        (self.state >> 33) % count
    }

    /// The next event. A worker claims mostly a layer that waits, and gives back mostly a layer that it has.
    pub fn step(&mut self, machine: &Machine) -> Step<'static> {
        match self.below(32) {
            0..=4 => self.register(),
            5..=8 => Step::DropImage(IMAGES[self.below(7) as usize]),
            9..=17 => Step::Claim(self.claim(machine)),
            18..=23 => Step::Indexed(self.finish(machine)),
            24 => Step::Fault(self.finish(machine)),
            25 => Step::Memory(self.finish(machine)),
            26..=27 => self.update(),
            28..=29 => Step::Patch(self.patch(machine)),
            _ => Step::Ack(self.number(machine)),
        }
    }

    fn register(&mut self) -> Step<'static> {
        let sample = &SAMPLES[self.below(6) as usize];
        let (layers, seals): (&[u8], &[u8]) = match self.below(4) {
            0 => (sample.other, b""),
            1 => (sample.usual, sample.seals),
            _ => (sample.usual, b""),
        };
        Step::Register {
            image: sample.letter,
            layers,
            seals,
        }
    }

    fn work(&mut self) -> Work {
        Work {
            layer: LAYERS[self.below(7) as usize],
            worker: self.below(WORKERS) as u32,
        }
    }

    /// The first of three layers that waits for a worker, or else the last one.
    fn claim(&mut self, machine: &Machine) -> Work {
        let mut work = self.work();
        for _ in 1..3 {
            if machine.status(work.layer) != Some(Status::Queued) {
                work = self.work();
            }
        }
        work
    }

    /// The first of ten layers that is claimed by its worker, or else the last one.
    fn finish(&mut self, machine: &Machine) -> Work {
        let mut work = self.work();
        for _ in 1..10 {
            if machine.status(work.layer) != Some(Status::Claimed(work.worker)) {
                work = self.work();
            }
        }
        work
    }

    /// The first of four numbers that a notification has, or else the last one.
    fn number(&mut self, machine: &Machine) -> u64 {
        let mut number = self.below(NUMBERS);
        for _ in 1..4 {
            if !machine.has_notification(number) {
                number = self.below(NUMBERS);
            }
        }
        number
    }

    fn update(&mut self) -> Step<'static> {
        Step::Update {
            feed: FEEDS[self.below(3) as usize],
            code: self.below(CODES) as u32,
        }
    }

    /// A patch, mostly on the generation of its feed. Of five records that may enter or go each does in about three of four draws.
    fn patch(&mut self, machine: &Machine) -> Patch {
        let feed = FEEDS[self.below(3) as usize];
        let code = self.below(CODES) as u32;
        let gone = self.below(CODES) as u32;
        let other = self.below(NUMBERS);
        let base = match machine.feed(feed) {
            Some(kept) if self.below(4) > 0 => kept.since,
            _ => other,
        };
        Patch {
            feed,
            base,
            code,
            gone,
        }
    }
}
