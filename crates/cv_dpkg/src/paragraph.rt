//! A paragraph, line by line.
ghost use Rattle.std.specs.Prelude.{◌≡◌, Some};
ghost use Rattle.cv_base.specs.Answer.{MatchesUnlessOutOfMemory};
ghost use Rattle.cv_stanza.specs.code.Steps.{line_fault};
ghost use Rattle.cv_dpkg.specs.code.Names.{entry_of};
ghost use Rattle.cv_dpkg.specs.code.Steps.{field_step, line_step, opening, state_view};

use crate::facts::Facts;
use crate::field::{Entry, is_name, named, split_field};
use crate::names::{FieldName, add_name};
use cv_base::{What, begins_with_blank};
use cv_stanza::{LineError, LineResult};
use std::alloc::Global;
use std::collections::BTreeSet;

/// A paragraph as far as it was read.
#[derive(Drop)]
pub struct Paragraph<'a> {
    pub names: BTreeSet<FieldName<'a>>,
    pub facts: Facts<'a>,
    /// Whether a line was read.
    pub begun: bool,
}

impl<'a> Paragraph<'a> {
    /// A paragraph of which no line was read.
    pub fn new(alloc: Global) -> Paragraph<'a>
        ensures { state_view result ≡ opening }
    {
        Paragraph {
            names: BTreeSet::new(alloc),
            facts: Facts::new(),
            begun: false,
        }
    }

    /// Takes one more line, which is not empty.
    pub fn take(&mut self, line: &'a [u8]) -> LineResult
        ensures { MatchesUnlessOutOfMemory line_fault (λ _. state_view self.new) result (line_step (state_view self.old) line.now) }
    {
        if begins_with_blank(line) {
            return if self.begun {
                Ok(())
            } else {
                Err(LineError::Bad(What::LooseContinuation))
            };
        }
        match split_field(line) {
            None => Err(LineError::Bad(What::NoColon)),
            Some(entry) => self.take_field(entry),
        }
    }

    fn take_field(&mut self, entry: Entry<'a>) -> LineResult
        ensures { MatchesUnlessOutOfMemory line_fault (λ _. state_view self.new) result (field_step (state_view self.old) (Some (entry_of entry.entry))) }
    {
        if !is_name(entry.name) {
            return Err(LineError::Bad(What::BadField));
        }
        if !add_name(&mut self.names, entry.name)? {
            return Err(LineError::Bad(What::RepeatedField));
        }
        self.facts.add(named(entry.name), entry.value)?;
        self.begun = true;
        Ok(())
    }
}
