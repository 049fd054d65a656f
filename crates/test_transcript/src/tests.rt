mod entry;
mod kept;
mod merge;
mod read;
mod records;
