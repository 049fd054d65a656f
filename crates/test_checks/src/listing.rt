//! Lists, loads and reads layers in real folders as `FolderDesk` does.
mod show;

use crate::listing::show::{show_listing, show_read, show_tree};
use cv_base::{Digest, RelPath};
use cv_desk::{Desk, load};
use cv_desk_folder::FolderDesk;
use std::io;

/// Does what each line of standard input says, `list DIGEST`, `load DIGEST` or `read DIGEST LIMIT PATH`, before it reads the next one,
/// and prints the line and what is seen.
pub fn list_layers(rt: &HostRuntime) -> io::Result<()> {
    for line in rt.lines(rt.alloc()) {
        answer(rt, line?.as_str())?;
    }
    Ok(())
}

/// Runs the command of a line.
fn answer(rt: &HostRuntime, line: &str) -> io::Result<()> {
    println!(rt; "> {line}")?;
    let (name, rest) = line.split_once(' ').unwrap_or((line, ""));
    let (layer, arguments) = rest.split_once(' ').unwrap_or((rest, ""));
    match Digest::read(layer.as_bytes()) {
        Ok(layer) => run(rt, name, &layer, arguments),
        Err(error) => println!(rt; "{error}"),
    }
}

fn run(rt: &HostRuntime, name: &str, layer: &Digest, arguments: &str) -> io::Result<()> {
    match name {
        "list" => list(rt, layer),
        "load" => load_layer(rt, layer),
        "read" => read(rt, layer, arguments),
        _ => println!(rt; "no such command"),
    }
}

fn list(rt: &HostRuntime, layer: &Digest) -> io::Result<()> {
    let mut desk = FolderDesk::new(rt.clone()?);
    match desk.list(rt.alloc(), layer) {
        Ok(found) => show_listing(rt, found),
        Err(_) => show_failure(rt, &desk),
    }
}

fn load_layer(rt: &HostRuntime, layer: &Digest) -> io::Result<()> {
    let mut desk = FolderDesk::new(rt.clone()?);
    match load(rt.alloc(), &mut desk, layer) {
        Ok(found) => show_tree(rt, found),
        Err(_) => show_failure(rt, &desk),
    }
}

/// Reads the file of a limit and a path.
fn read(rt: &HostRuntime, layer: &Digest, arguments: &str) -> io::Result<()> {
    let (limit, path) = arguments.split_once(' ').unwrap_or((arguments, ""));
    let Ok(limit) = limit.parse::<u32>() else {
        return println!(rt; "not a limit");
    };
    let Ok(path) = RelPath::read(rt.alloc(), path) else {
        return println!(rt; "not a path");
    };
    let mut desk = FolderDesk::new(rt.clone()?);
    match desk.read(rt.alloc(), layer, &path, limit) {
        Ok(found) => show_read(rt, &found),
        Err(_) => show_failure(rt, &desk),
    }
}

/// Prints where and why the last call on the desk failed.
fn show_failure(rt: &HostRuntime, desk: &FolderDesk<HostRuntime>) -> io::Result<()> {
    match desk.last_failure() {
        Some(failure) => println!(rt; "failed: {failure}"),
        None => println!(rt; "out of memory"),
    }
}
