use cv_base::{Digest, Seq};
use cv_core_records::{EventEntry, ReadEntry, Reply};
use std::test::Fail;

fn is_shared<T: Send + Sync>() {}

#[test]
fn entries_are_shared() {
    is_shared::<(EventEntry, ReadEntry)>();
}

#[test]
fn a_copied_conflict_keeps_the_same_layers_and_seals(rt: HostRuntime) -> Result<(), Fail> {
    let kept = Seq::of(vec![in rt.alloc(); Digest::of([7; 32])]?);
    let kept_seals = Seq::of(vec![in rt.alloc(); Some(Digest::of([8; 32]))]?);
    let conflict = Reply::Conflict { kept, kept_seals };
    assert_eq!(rt; conflict.clone()?, conflict);
    Ok(())
}
