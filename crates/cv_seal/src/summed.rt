ghost use Rattle.std.specs.Prelude.{◌≡◌};
ghost use Rattle.std.specs.Option.{option_map};
ghost use Rattle.cv_seal.specs.Seal.{is_sealed_place, is_summed};

use cv_base::{Kind, ListEntry, PACKAGE_FILE_LIMIT, Place, place};

/// Whether the contents of an entry are summed: it is a file at one of the seven places of package files, and not above
/// their limit. All other entries are summed without contents.
pub fn is_summed(entry: &ListEntry) -> bool
    ensures { result ≡ is_summed entry.now }
{
    entry.kind == Kind::File
        && is_sealed_place(place(&entry.path))
        && entry.size <= u64::from(PACKAGE_FILE_LIMIT)
}

/// Whether the contents of files at a place are summed.
fn is_sealed_place(place: Option<Place>) -> bool
    ensures { result ≡ is_sealed_place place }
{
    matches!(
        place,
        Some(
            Place::Status
                | Place::StatusFolder
                | Place::Installed
                | Place::UsrInstalled
                | Place::Os
                | Place::UsrOs
                | Place::Npm
        )
    )
}
