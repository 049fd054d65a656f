ghost use Rattle.std.specs.Prelude.{◌≡◌, string_bytes, IfOk};
ghost use Rattle.serde_json.specs.Written.{compact_text};
ghost use Rattle.cv_transcript.specs.Rows.{rows_data};
ghost use Rattle.cv_hook_folder.specs.Names.{file_name};

use cv_base::{NoMemory, Row};
use cv_scan_output::json_of;
use cv_transcript::rows_value;
use std::alloc::Global;
use std::fs::{self, File, OpenOptions};
use std::io::{self, ErrorKind, Write};

/// The folder, in the working directory.
const FOLDER: &str = "hook";

/// The file in which a text is written before it has its name.
const UNFINISHED: &str = "hook/unfinished";

/// The compact JSON of a list of rows, as a page has it.
#[tactic(auto, using(crate::proofs::Floats::rows_have_none))]
pub fn rows_text(alloc: Global, rows: &[Row]) -> Result<String, NoMemory>
    ensures { IfOk result (λ text. string_bytes text ≡ compact_text (rows_data rows.now)) }
{
    let value = rows_value(alloc, rows)?;
    json_of(alloc, &value)
}

/// The name of a notification's file.
pub fn name_of(alloc: Global, number: u64) -> Result<String, NoMemory>
    ensures { IfOk result (λ name. string_bytes name ≡ file_name number) }
{
    Ok(format!(in alloc; "hook/{number}.json")?)
}

/// Writes a file of the folder, in the place of one of this name. A reader finds by the name what was there before, or the new text as a
/// whole, also after a crash. Nothing of a text that could not be written stays.
pub fn replace(rt: &HostRuntime, name: &str, text: &str) -> io::Result<()> {
    let written = write(rt, name, text);
    if written.is_err() {
        let _ = fs::remove_file(rt, UNFINISHED);
    }
    written
}

/// Writes a text beside its name, brings it to the disk, and then the name.
fn write(rt: &HostRuntime, name: &str, text: &str) -> io::Result<()> {
    let mut file = create_unfinished(rt)?;
    file.write_all(text.as_bytes())?;
    file.sync_all()?;
    fs::rename(rt, UNFINISHED, name)?;
    File::open(rt, FOLDER)?.sync_all()
}

/// Makes the file that has no name yet. What stands in its place is removed first, so a link is not followed, and no pipe waited for.
fn create_unfinished(rt: &HostRuntime) -> io::Result<File> {
    match fs::remove_file(rt, UNFINISHED) {
        Err(error) if error.kind() != ErrorKind::NotFound => Err(error),
        _ => OpenOptions::new()
            .write(true)
            .create_new(true)
            .open(rt, UNFINISHED),
    }
}
