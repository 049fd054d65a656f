//! A whole status file.
ghost use Rattle.std.specs.Prelude.{IfErr, IfSome};
ghost use Rattle.cv_base.specs.Answer.{MatchesUnlessOutOfMemory};
ghost use Rattle.cv_base.specs.Reading.{read_fault};
ghost use Rattle.cv_stanza.specs.Blocks.{IsFirstBad};
ghost use Rattle.cv_dpkg.specs.Status.{lines, rules, status};

use crate::package::DebPackage;
use crate::rule::StatusRule;
use cv_base::{ReadBad, Seq};
use cv_stanza::read_blocks;
use std::alloc::Global;

/// The packages of a status file that count, in the order of their paragraphs, or the fault at the least faulty line.
///
/// One pass over the bytes, linear but for the names of a paragraph, which are found again in n log n. Only what counts
/// is copied.
pub fn read_status(
    alloc: Global,
    bytes: &[u8],
    rule: StatusRule,
) -> Result<Seq<DebPackage>, ReadBad>
    ensures answer { MatchesUnlessOutOfMemory read_fault (λ packages. packages) result (status bytes.now rule) }
    ensures first { IfErr result (λ error. IfSome (read_fault error) (IsFirstBad (rules rule) (lines bytes.now))) }
{
    Ok(Seq::of(read_blocks(alloc, &rule, bytes)?))
}
