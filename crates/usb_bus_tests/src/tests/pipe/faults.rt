use std::test::Fail;
use usb_transfer::{BusFault, PipeFault};

const PRINTED: [(PipeFault, &str); 6] = [
    (PipeFault::Stalled, "stalled"),
    (PipeFault::Busy, "busy"),
    (PipeFault::NoAnswer, "no answer"),
    (PipeFault::Broken, "broken"),
    (PipeFault::Bus(BusFault::Failed), "trace failed"),
    (PipeFault::Memory, "out of memory"),
];

#[test]
fn faults_as_printed(rt: HostRuntime) -> Result<(), Fail> {
    for (fault, text) in PRINTED {
        assert_eq!(rt; format!(in rt.alloc(); "{fault}")?.as_str(), text);
    }
    Ok(())
}
