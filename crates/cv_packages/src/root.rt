ghost use Rattle.std.specs.Prelude.{◌≡◌, map, IfOk};
ghost use Rattle.cv_base.specs.Answer.{MatchesUnlessOutOfMemory};
ghost use Rattle.cv_packages.specs.Faults.{refused_file};
ghost use Rattle.cv_packages.specs.Packages.{packages};

use crate::assembly::assemble;
use crate::error::PackagesError;
use crate::files::read_files;
use crate::found::FileFound;
use cv_base::{NoMemory, Package, Seq, TreeEntry};
use std::alloc::Global;

/// The packages of a root, whose entries stand in the order of their paths: reads each package file, and assembles what
/// they have.
#[tactic(auto, unfolding(crate::specs::Packages::packages))]
pub fn read_packages(alloc: Global, entries: &[TreeEntry]) -> Result<Seq<Package>, PackagesError>
    ensures { MatchesUnlessOutOfMemory refused_file (λ packages. packages) result (packages entries.now) }
{
    let files = read_files(alloc, entries)?;
    let borrowed = borrowed(alloc, &files)?;
    assemble(alloc, &borrowed)
}

/// References to files.
fn borrowed(alloc: Global, files: &[FileFound]) -> Result<Vec<&FileFound>, NoMemory>
    ensures { IfOk result (λ out. map (λ file. file.now) out.items ≡ files.now) }
{
    let mut out = Vec::new(alloc);
    for file in files {
        out.push(file)?;
    }
    Ok(out)
}
