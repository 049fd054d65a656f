ghost use Rattle.std.specs.Prelude.{◌≡◌};
ghost use Rattle.std.specs.Option.{option_map};
ghost use Rattle.cv_core_inventory.specs.Knowledge.{report_by};
ghost use Rattle.cv_core.specs.Reports.{shown};

use cv_base::{Digest, Finding, Seq};
use cv_core_outcome::Outcome;
use cv_overlay::ImageFault;
use thiserror::Error;

/// The findings of an image with the feeds as they are in this generation, sorted by package, feed and id of the advisory.
#[derive(Clone, Copy, Debug)]
pub struct Report<'a> {
    pub generation: u64,
    pub findings: &'a Seq<Finding>,
}

/// Why there is no report.
#[derive(Clone, Copy, Debug, Error)]
pub enum ReportRefusal<'a> {
    #[error("the image is not registered")]
    NotRegistered,
    /// The first layer of the image that is not indexed.
    #[error("a layer of the image is not indexed")]
    Pending(Digest),
    /// Why the image is bad.
    #[error("the image is bad")]
    BadImage(&'a ImageFault),
}

/// The report by the outcome of an image, if it is registered. It takes no memory.
pub fn report_by(
    generation: u64,
    outcome: Option<&Outcome>,
) -> Result<Report<'_>, ReportRefusal<'_>>
    ensures { shown result ≡ report_by generation (option_map (λ outcome. outcome.now) outcome.entry) }
{
    match outcome {
        None => Err(ReportRefusal::NotRegistered),
        Some(Outcome::Pending(layer)) => Err(ReportRefusal::Pending(*layer)),
        Some(Outcome::Bad(fault)) => Err(ReportRefusal::BadImage(fault.value())),
        Some(Outcome::Good { findings, .. }) => Ok(Report {
            generation,
            findings: findings.seq(),
        }),
    }
}
