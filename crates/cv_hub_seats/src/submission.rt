use cv_core_machine::MachineEvent;
use cv_core_records::{By, Reply};

/// An event of a hub's list: the seat that submitted it, in whose name, all that the machine needs of it, and the reply. It is used
/// in contracts only.
#[derive(Debug, Drop)]
pub struct Submission {
    pub seat: u64,
    pub by: By,
    pub act: MachineEvent,
    pub reply: Reply,
}
