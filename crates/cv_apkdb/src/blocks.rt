//! The format of the blocks, each of which is a package.
ghost use Rattle.std.specs.Prelude.{◌≡◌};

use crate::facts::Facts;
use crate::letter::split_entry;
use crate::package::ApkPackage;
use cv_base::What;
use cv_stanza::{BlockFormat, LineError, LineResult};
use std::alloc::Global;

/// Blocks that are packages.
#[derive(Clone, Copy)]
pub struct PackageBlocks;

impl<'a> BlockFormat<'a> for PackageBlocks {
    ghost use Rattle.cv_apkdb.specs.Installed.{rules};
    ghost use Rattle.cv_apkdb.specs.Package.{Facts, facts};
    ghost use Rattle.cv_apkdb.specs.code.Follows.{follows};
    ghost use Rattle.cv_apkdb.specs.code.Steps.{facts_view, steps};

    type Block = Facts<'a>;

    type Item = ApkPackage;

    ghost State = { Facts };

    ghost state = { facts_view };

    ghost trimmed = { λ line. line };

    ghost rules = { λ _. rules };

    ghost steps = { λ _. steps };

    ghost kept = { facts };

    ghost agrees = { λ _. follows };

    fn trim(line: &'a [u8]) -> &'a [u8] {
        line
    }

    fn open(&self, _alloc: Global) -> Facts<'a> {
        Facts {
            name: None,
            version: None,
            arch: None,
            origin: None,
        }
    }

    fn take(&self, block: &mut Facts<'a>, line: &'a [u8]) -> LineResult {
        match split_entry(line) {
            Some(entry) => Ok(block.add(entry)?),
            None => Err(LineError::Bad(What::NoColon)),
        }
    }

    fn close(&self, alloc: Global, block: &Facts<'a>, found: &mut Vec<ApkPackage>) -> LineResult {
        match block.fault() {
            Some(what) => Err(LineError::Bad(what)),
            None => Ok(block.push_package(alloc, found)?),
        }
    }
}
