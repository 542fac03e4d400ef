//! Copies of the faults by which a replica refuses an event.

use jc_replica::ReplicaFault;
use jc_rules::{Key, Tagged};
use std::test::Fail;

#[test]
fn replica_faults_are_copied(rt: HostRuntime) -> Result<(), Fail> {
    let place = ReplicaFault::NoSuchNode(Tagged::ListT(Key::Head));
    assert!(rt; place.copy()? == place);
    assert!(rt; ReplicaFault::PastEnd.copy()? == ReplicaFault::PastEnd);
    Ok(())
}
