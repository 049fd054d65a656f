//! The format of the blocks, each of which is a paragraph.
ghost use Rattle.std.specs.Prelude.{◌≡◌};

use crate::package::DebPackage;
use crate::paragraph::Paragraph;
use crate::rule::StatusRule;
use cv_base::trim_line;
use cv_stanza::{BlockFormat, LineError, LineResult};
use std::alloc::Global;

impl<'a> BlockFormat<'a> for StatusRule {
    ghost use Rattle.cv_base.specs.Cuts.{is_dropped, without_end};
    ghost use Rattle.cv_dpkg.specs.Status.{rules};
    ghost use Rattle.cv_dpkg.specs.code.Follows.{follows, kept};
    ghost use Rattle.cv_dpkg.specs.code.Steps.{State, state_view, steps};

    type Block = Paragraph<'a>;

    type Item = DebPackage;

    ghost State = { State };

    ghost state = { state_view };

    ghost trimmed = { without_end is_dropped };

    ghost rules = { rules };

    ghost steps = { steps };

    ghost kept = { kept };

    ghost agrees = { follows };

    fn trim(line: &'a [u8]) -> &'a [u8] {
        trim_line(line)
    }

    fn open(&self, alloc: Global) -> Paragraph<'a> {
        Paragraph::new(alloc)
    }

    fn take(&self, block: &mut Paragraph<'a>, line: &'a [u8]) -> LineResult {
        block.take(line)
    }

    fn close(
        &self,
        alloc: Global,
        block: &Paragraph<'a>,
        found: &mut Vec<DebPackage>,
    ) -> LineResult {
        match block.facts.fault(*self) {
            Some(what) => Err(LineError::Bad(what)),
            None => Ok(block.facts.push_package(alloc, found)?),
        }
    }
}
