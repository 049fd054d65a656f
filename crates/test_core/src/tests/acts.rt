use cv_core_machine::{Limits, MachineEvent, Status};

fn is_shared<T: Send + Sync>() {}

#[test]
fn acts_are_shared() {
    is_shared::<(MachineEvent, Status, Limits)>();
}
