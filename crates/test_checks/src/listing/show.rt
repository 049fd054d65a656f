use cv_base::{Content, Kind, ListEntry, Node, Seq, Tree, TreeEntry};
use cv_desk::FileRead;
use std::{io, str};

/// Prints a listing, an entry a line.
pub fn show_listing(rt: &HostRuntime, found: Option<Seq<ListEntry>>) -> io::Result<()> {
    let Some(entries) = found else {
        return println!(rt; "no layer");
    };
    for entry in entries.as_slice() {
        show_entry(rt, entry)?;
    }
    Ok(())
}

fn show_entry(rt: &HostRuntime, entry: &ListEntry) -> io::Result<()> {
    let path = entry.path.text();
    match entry.kind {
        Kind::Dir => println!(rt; "directory {path}"),
        Kind::File => println!(rt; "file {path} of {} bytes", entry.size),
        Kind::Other => println!(rt; "other {path}"),
    }
}

/// Prints a loaded layer, an entry a line.
pub fn show_tree(rt: &HostRuntime, found: Option<Tree>) -> io::Result<()> {
    let Some(tree) = found else {
        return println!(rt; "no layer");
    };
    for entry in tree.entries.as_slice() {
        show_node(rt, entry)?;
    }
    Ok(())
}

fn show_node(rt: &HostRuntime, entry: &TreeEntry) -> io::Result<()> {
    let path = entry.path.text();
    match &entry.node {
        Node::Dir => println!(rt; "directory {path}"),
        Node::File(Content::Bytes(bytes)) => {
            println!(rt; "file {path}, {} bytes read", bytes.as_slice().len())
        }
        Node::File(Content::TooLarge) => println!(rt; "file {path}, too large"),
        Node::File(Content::Unread) => println!(rt; "file {path}, not read"),
        Node::Other => println!(rt; "other {path}"),
    }
}

/// Prints what a read gave.
pub fn show_read(rt: &HostRuntime, found: &FileRead) -> io::Result<()> {
    match found {
        FileRead::Bytes(bytes) => match str::from_utf8(bytes.as_slice()) {
            Ok(text) => println!(rt; "text {text:?}"),
            Err(_) => println!(rt; "{} bytes", bytes.as_slice().len()),
        },
        FileRead::TooLarge => println!(rt; "too large"),
        FileRead::NotFile => println!(rt; "not a file"),
    }
}
