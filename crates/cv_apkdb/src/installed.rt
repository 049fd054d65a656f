//! A whole database of installed packages.
ghost use Rattle.std.specs.Prelude.{IfErr, IfSome};
ghost use Rattle.cv_base.specs.Answer.{MatchesUnlessOutOfMemory};
ghost use Rattle.cv_base.specs.Reading.{read_fault};
ghost use Rattle.cv_stanza.specs.Blocks.{IsFirstBad};
ghost use Rattle.cv_apkdb.specs.Installed.{installed, lines, rules};

use crate::blocks::PackageBlocks;
use crate::package::ApkPackage;
use cv_base::{ReadBad, Seq};
use cv_stanza::read_blocks;
use std::alloc::Global;

/// The packages of an installed database in order, or the fault at the least faulty line.
///
/// One pass over the bytes. Only the packages are copied.
#[tactic(auto, using(crate::proofs::Same::same_lines))]
pub fn read_installed(alloc: Global, bytes: &[u8]) -> Result<Seq<ApkPackage>, ReadBad>
    ensures answer { MatchesUnlessOutOfMemory read_fault (λ packages. packages) result (installed bytes.now) }
    ensures first { IfErr result (λ error. IfSome (read_fault error) (IsFirstBad rules (lines bytes.now))) }
{
    Ok(Seq::of(read_blocks(alloc, &PackageBlocks, bytes)?))
}
