ghost use Rattle.std.specs.Prelude.{IfErr};
ghost use Rattle.cv_io.specs.Standard.{IsNoInterrupt};

use cv_io::{MOST_TRIES, is_interrupted, too_many_signals};
use std::fs::{Metadata, OpenFile};
use std::io;
use std::rt::Files;

/// What the system says of a path, with no link followed at its end. It is asked again while signals interrupt it.
pub fn look<R: Files>(rt: &R, place: &str) -> io::Result<Metadata>
    ensures { IfErr result IsNoInterrupt }
{
    for _ in 0..MOST_TRIES {
        let found = rt.symlink_metadata(place);
        if !is_interrupted(&found) {
            return found;
        }
    }
    Err(too_many_signals())
}

/// What the system says of an open file. It is asked again while signals interrupt it.
pub fn look_at_open<F: OpenFile>(file: &F) -> io::Result<Metadata>
    ensures { IfErr result IsNoInterrupt }
{
    for _ in 0..MOST_TRIES {
        let found = file.metadata();
        if !is_interrupted(&found) {
            return found;
        }
    }
    Err(too_many_signals())
}
