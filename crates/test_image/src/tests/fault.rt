use cv_base::RelPath;
use cv_overlay::{ImageFault, Root, TreeFault};
use std::test::Fail;

/// A value that threads may share.
fn shared<T: Send + Sync>(value: T) -> T {
    value
}

#[test]
fn threads_may_share_faults_and_roots(rt: HostRuntime) -> Result<(), Fail> {
    let alloc = rt.alloc();
    assert_eq!(rt; shared(TreeFault::TooMany), TreeFault::TooMany);
    let fault = ImageFault::TooLarge {
        path: RelPath::read(alloc, "etc/os-release")?,
    };
    assert_eq!(rt; shared(fault.clone()?), fault);
    let root = shared(Root::empty(alloc));
    assert_eq!(rt; root.entries().len(), 0);
    assert!(rt; root.get(&RelPath::read(alloc, "etc")?).is_none());
    Ok(())
}
