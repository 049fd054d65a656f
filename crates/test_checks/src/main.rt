//! Checks what no contract says, and prints what it sees: what `FolderDesk` lists and reads in the folders of `data/`, what `FileDisk`
//! keeps in a file, what `FolderHook` writes into a folder, that images have the same findings in two ways, and what events leave in the
//! core of the service and in a plain machine. With the argument `layers` it only lists and reads folders.
#![tactic(auto)]

mod events;
mod hook;
mod images;
mod keep;
mod listing;
mod service;

use std::{env, io};

fn main(rt: HostRuntime) -> io::Result<()> {
    let arguments: Vec<String> = env::args(&rt)?.collect(rt.alloc())?;
    listing::list_layers(&rt)?;
    if arguments.len() > 1 {
        return Ok(());
    }
    keep::keep_records(&rt)?;
    hook::hand_over(&rt)?;
    images::scan_images(&rt)?;
    events::apply_events(&rt)
}
