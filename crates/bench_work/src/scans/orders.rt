ghost use Rattle.std.specs.Prelude.{◌≤◌, IfOk};

use cv_base::NoMemory;
use std::alloc::Global;
use std::cmp::Ordering;

/// An order of versions.
#[derive(Clone, Copy)]
pub enum Order {
    Debian,
    Alpine,
}

impl Order {
    /// The order of a kind of package: `apk`, and else that of Debian.
    pub fn of(kind: &str) -> Order {
        match kind {
            "apk" => Order::Alpine,
            _ => Order::Debian,
        }
    }
}

const DEBIAN: [&str; 8] = [
    "2.36-9+deb12u4",
    "1:9.2p1-2+deb12u2",
    "3.0.11-1~deb12u2",
    "0~git20230102.5f2c1a0-1",
    "1:1.2.13.dfsg-1",
    "2.3.7+ds1-3",
    "3.0.11-1~deb12u3",
    "1.19.4-2+b1",
];

const ALPINE: [&str; 8] = [
    "3.2.1-r2",
    "1.36.1-r15",
    "0.9.13_rc1-r0",
    "9.3_p2-r1",
    "1.2_git20230102-r1",
    "2.2b-r3",
    "20230506-r0",
    "3.2.1-r1",
];

/// Compares this number of pairs, and counts those whose first version is less. They are of usual versions, or of two versions that have
/// the given number of bytes and differ in the last one, where a length is given.
pub fn compare_pairs(alloc: Global, order: Order, pairs: u64, length: u64) -> Result<u64, NoMemory>
    ensures { IfOk result (λ less. less ≤ pairs) }
{
    if length > 0 {
        let lower = long_version(alloc, order, length, '1')?;
        let upper = long_version(alloc, order, length, '2')?;
        return Ok(count_less(order, &[lower.as_str(), upper.as_str()], pairs));
    }
    Ok(match order {
        Order::Debian => count_less(order, &DEBIAN, pairs),
        Order::Alpine => count_less(order, &ALPINE, pairs),
    })
}

/// Goes over all pairs of the versions, time and again.
fn count_less(order: Order, versions: &[&str], pairs: u64) -> u64
    ensures { result ≤ pairs }
{
    if versions.is_empty() {
        return 0;
    }
    let count = versions.len() as u64;
    let mut less = 0;
    for pair in 0..pairs {
        let left = versions[(pair % count) as usize];
        let right = versions[(pair / count % count) as usize];
        if compare(order, left.as_bytes(), right.as_bytes()).is_lt() {
            less += 1;
        }
    }
    less
}

fn compare(order: Order, left: &[u8], right: &[u8]) -> Ordering {
    match order {
        Order::Debian => cv_debver::compare(left, right),
        Order::Alpine => cv_apkver::compare(left, right),
    }
}

fn long_version(alloc: Global, order: Order, length: u64, last: char) -> Result<String, NoMemory> {
    let part = match order {
        Order::Debian => b"10.27+dfsg~",
        Order::Alpine => b"10.27.305.4",
    };
    let mut version = String::new(alloc);
    for place in 1..length {
        version.push(char::from(part[(place % 11) as usize]))?;
    }
    version.push(last)?;
    Ok(version)
}
