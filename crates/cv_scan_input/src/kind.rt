ghost use Rattle.std.specs.Prelude.{◌≡◌, ℕ, List, Result, IfOk};
ghost use Rattle.cv_base.specs.Answer.{Gives};
ghost use Rattle.cv_scan_input.specs.code.Memory.{is_input_memory};
ghost use Rattle.cv_scan_input.specs.code.Remaining.{refused_at};
ghost use Rattle.cv_scan_input.specs.declared.error.InputFault.{InputFault};
ghost use Rattle.cv_scan_input.specs.declared.later.Later.{Later};

use crate::error::InputError;
use crate::later::Later;
use crate::line::{list_line, manifest_line};
use cv_base::Manifest;
use cv_sbom::ComponentList;
use std::alloc::Global;

/// What an input holds: what its line 1 is, and what may stand after it.
pub trait InputKind {
    type First: Drop;

    /// What line 1 is, or why it is refused.
    ghost first_of: { List ℕ → Result Self.First InputFault };

    /// What holds of every line 1 that is not refused.
    ghost right: { Self.First → Type 0 };

    /// What may stand after line 1.
    ghost further: { Later };

    fn later() -> Later
        ensures { result ≡ further };

    /// Reads line 1.
    fn read(alloc: Global, line: &[u8]) -> Result<Self::First, InputError>
        ensures value { Gives is_input_memory (λ first. first) result (refused_at 1 (first_of line.now)) }
        ensures right { IfOk result right };
}

/// The manifest of an image, and records of advisories.
pub struct ScanKind;

impl InputKind for ScanKind {
    ghost use Rattle.cv_scan_input.specs.Answer.{HasLayers};
    ghost use Rattle.cv_scan_input.specs.Request.{manifest_or};
    ghost use Rattle.cv_scan_input.specs.declared.later.Later.TheVariants.{Records};

    type First = Manifest;

    ghost first_of = { manifest_or };

    ghost right = { HasLayers };

    ghost further = { Records };

    fn later() -> Later {
        Later::Records
    }

    fn read(alloc: Global, line: &[u8]) -> Result<Manifest, InputError> {
        manifest_line(alloc, line)
    }
}

/// The manifest of an image alone.
pub struct ImageKind;

impl InputKind for ImageKind {
    ghost use Rattle.cv_scan_input.specs.Answer.{HasLayers};
    ghost use Rattle.cv_scan_input.specs.Request.{manifest_or};
    ghost use Rattle.cv_scan_input.specs.declared.later.Later.TheVariants.{Nothing};

    type First = Manifest;

    ghost first_of = { manifest_or };

    ghost right = { HasLayers };

    ghost further = { Nothing };

    fn later() -> Later {
        Later::Nothing
    }

    fn read(alloc: Global, line: &[u8]) -> Result<Manifest, InputError> {
        manifest_line(alloc, line)
    }
}

/// A list of components, and records of advisories.
pub struct ListKind;

impl InputKind for ListKind {
    ghost use Rattle.cv_scan_input.specs.Request.{list_or};
    ghost use Rattle.cv_scan_input.specs.declared.later.Later.TheVariants.{Records};

    type First = ComponentList;

    ghost first_of = { list_or };

    ghost right = { λ _. Unit {0} };

    ghost further = { Records };

    fn later() -> Later {
        Later::Records
    }

    fn read(alloc: Global, line: &[u8]) -> Result<ComponentList, InputError> {
        list_line(alloc, line)
    }
}
