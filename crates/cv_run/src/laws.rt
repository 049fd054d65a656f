ghost use Rattle.cv_run.specs.ListRuns.{RunsFindTheSame};

use cv_desk::Desk;
use cv_io::Source;

/// What holds of all runs over a source that says its bytes and desks whose type says its layers: if `sbom`, `scan` and `scan-list`
/// are done, the scan of the list that `sbom` wrote finds what the scan of the image finds, with the same records.
pub fn list_law<S: Source, D: Desk>()
    ensures { RunsFindTheSame D.tree S.remaining D.listings D.faults }
{}
