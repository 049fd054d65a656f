ghost use Rattle.cv_base.specs.Answer.{MatchesUnlessOutOfMemory};
ghost use Rattle.cv_request.specs.Fault.{fault_of};
ghost use Rattle.cv_osv_text.specs.Tree.{line_read};

use crate::line::read_line;
use crate::shared::SharedTexts;
use cv_base::NoMemory;
use cv_osv::RecordRead;
use cv_request::RequestError;
use json::Scratch;
use std::alloc::Global;

/// What one line after another is read with: room for texts with escapes, and the texts that may come again.
#[derive(Drop)]
pub struct RecordReader {
    scratch: Scratch,
    texts: SharedTexts,
}

impl RecordReader {
    /// No text is kept yet. It takes memory for the table of texts.
    pub fn new(alloc: Global) -> Result<RecordReader, NoMemory> {
        Ok(RecordReader {
            scratch: Scratch::new(alloc),
            texts: SharedTexts::new(alloc)?,
        })
    }

    /// Reads a line as a record, as `read_json` of cv_request and `read_advisory` of cv_osv do. `BadJson` if the line is not
    /// UTF-8 or not JSON.
    pub fn read(&mut self, alloc: Global, line: &[u8]) -> Result<RecordRead, RequestError>
        ensures { MatchesUnlessOutOfMemory fault_of (λ found. found) result (line_read line.now) }
    {
        read_line(alloc, line, &mut self.scratch, &mut self.texts)
    }
}
