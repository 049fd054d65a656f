use cv_base::NoMemory;
use cv_serve_crew::{Crew, Team, run_sides};
use std::sync::atomic::AtomicU64;
use std::sync::atomic::Ordering::SeqCst;
use std::thread::yield_now;

/// The most turns that a part takes until the others have begun.
const TURNS: u32 = 10_000_000;

/// A team whose parts wait for each other: each raises the count of those that have begun, and takes turns until it is the goal. A part
/// is whether it saw that number.
#[derive(Drop)]
struct Meeting {
    begun: AtomicU64,
    goal: u64,
}

impl Meeting {
    fn is_reached(&self) -> bool {
        let _ = self
            .begun
            .fetch_update(SeqCst, SeqCst, |count| count.checked_add(1));
        for _ in 0..TURNS {
            if self.begun.load(SeqCst) >= self.goal {
                return true;
            }
            yield_now();
        }
        false
    }
}

impl Team<u8, bool> for Meeting {
    ghost use Rattle.std.specs.Prelude.{⊤};

    ghost prepared = { λ _ _ _. ⊤ };

    ghost did = { λ _ _ _ _ _. ⊤ };

    fn is_idle(&self, _part: &bool) -> bool {
        false
    }

    fn run(&self, _seat: &mut u8, part: &mut bool) -> Result<(), NoMemory> {
        *part = self.is_reached();
        Ok(())
    }
}

/// A crew without work.
struct Nobody;

impl Crew<u8, u8, u8> for Nobody {
    ghost use Rattle.std.specs.Prelude.{⊤};

    ghost prepared = { λ _ _ _ _ _. ⊤ };

    ghost did = { λ _ _ _ _ _ _ _ _. ⊤ };

    ghost listed = { λ _. 0 };

    ghost failed = { λ _. 0 };

    fn is_idle(&self) -> bool {
        true
    }

    fn run(
        &self,
        _number: u32,
        _hand: &mut u8,
        _seat: &mut u8,
        _desk: &mut u8,
    ) -> Result<(), NoMemory> {
        Ok(())
    }
}

#[test]
fn the_parts_of_a_team_run_concurrently(rt: HostRuntime) -> Result<(), NoMemory> {
    let meeting = Meeting {
        begun: AtomicU64::new(0),
        goal: 3,
    };
    let mut parts = [false; 3];
    let mut seats = [0; 3];
    run_sides(
        &rt,
        &meeting,
        &Nobody,
        &mut parts,
        &mut [],
        &mut seats,
        &mut [],
    )?;
    let how = if parts == [true; 3] {
        "concurrently"
    } else {
        "in turn, as without memory for a thread"
    };
    assert_eq!(rt; how, "concurrently");
    Ok(())
}
