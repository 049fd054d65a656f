//! Scans images in two ways, by their roots and by the reductions of their layers. Made images have whiteouts, opaque marks, files in
//! the place of folders, folders in the place of files, layers that stand twice, layers that are missing and layers whose trees are
//! bad.
mod compare;
mod contents;
mod known;
mod made;
mod records;

use crate::images::compare::Compared;
use crate::images::made::Tally;
use cv_base::{Advisory, NoMemory};
use std::io;

/// Prints what both ways say: first of known images, with the number of their findings, and then of made ones, with how often both
/// give the same answer.
pub fn scan_images(rt: &HostRuntime) -> io::Result<()> {
    match records::all(rt.alloc()) {
        Ok(advisories) => show_all(rt, &advisories),
        Err(NoMemory) => println!(rt; "out of memory"),
    }
}

fn show_all(rt: &HostRuntime, advisories: &[Advisory]) -> io::Result<()> {
    for image in known::IMAGES.iter() {
        show(rt, image, known::compared(rt.alloc(), image, advisories))?;
    }
    match made::compare_all(rt.alloc(), advisories) {
        Ok(tally) => show_tally(rt, &tally),
        Err(NoMemory) => println!(rt; "out of memory"),
    }
}

/// Prints what both ways say of an image, whose layers have these digits.
fn show(rt: &HostRuntime, image: &str, compared: Result<Compared, NoMemory>) -> io::Result<()> {
    match compared {
        Ok(Compared::Found(count)) => println!(rt; "{image}: findings in both ways: {count}"),
        Ok(Compared::Bad) => println!(rt; "{image}: bad in both ways"),
        Ok(Compared::Different) => println!(rt; "{image}: the two ways differ"),
        Err(NoMemory) => println!(rt; "{image}: out of memory"),
    }
}

/// Prints how often both ways agree, and that there were enough images of each sort.
fn show_tally(rt: &HostRuntime, tally: &Tally) -> io::Result<()> {
    println!(rt;
        "made images with the same answer in both ways: {}",
        tally.same()
    )?;
    println!(rt; "with other answers: {}", tally.different)?;
    println!(rt;
        "of the former, a tenth have findings: {}",
        tally.found >= made::TENTH
    )?;
    println!(rt; "a tenth have none: {}", tally.empty >= made::TENTH)?;
    println!(rt; "a tenth are bad: {}", tally.bad >= made::TENTH)
}
