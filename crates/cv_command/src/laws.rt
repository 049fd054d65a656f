ghost use Rattle.cv_command.specs.World.{Trees};
ghost use Rattle.cv_command.specs.SameFindings.{FindsTheSame};

/// What holds of every image whose layers a desk's type has: if `sbom`, `scan` and `scan-list` are done, the scan of the list that was
/// written finds what the scan of the image finds, with the same records.
pub fn list_law()
    ensures { (trees : Trees) → FindsTheSame trees }
{}
