use key_class::{Fault, Refusal};
use std::alloc::{AllocError, AllocFailed};
use std::test::Fail;

#[test]
fn prints_faults_and_refusals(rt: HostRuntime) -> Result<(), Fail> {
    for (fault, text) in [
        (Fault::OutOfMemory, "out of memory"),
        (Fault::Read, "read failed"),
        (Fault::Write, "write failed"),
        (Fault::Refused(Refusal::Line(4096)), "refused 22 Line 4096"),
    ] {
        assert_eq!(rt; format!(in rt.alloc(); "{fault}")?.as_str(), text);
    }
    Ok(())
}

#[test]
fn converts_failed_allocations(rt: HostRuntime) {
    assert_eq!(rt; Refusal::from(AllocError), Refusal::OutOfMemory);
    assert_eq!(rt;
        Refusal::from(AllocFailed { value: 7u8 }),
        Refusal::OutOfMemory
    );
}
