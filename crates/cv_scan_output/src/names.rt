ghost use Rattle.std.specs.Prelude.{◌≡◌};
ghost use Rattle.cv_scan_output.specs.Bad.{what_name};

use cv_base::What;

/// The printed name of what is wrong with a line of a package database.
pub fn what_name(what: What) -> &'static str
    ensures { result.now ≡ what_name what }
{
    match what {
        What::NoColon => "no_colon",
        What::BadField => "bad_field",
        What::RepeatedField => "repeated_field",
        What::LooseContinuation => "loose_continuation",
        What::NoPackage => "no_package",
        What::NoVersion => "no_version",
        What::BadStatus => "bad_status",
        What::BadValue => "bad_value",
        What::NoName => "no_name",
        What::Repeated => "repeated",
    }
}
