//! A pipe that is refused memory for the bytes of a packet is broken, until it is cleared.
ghost use Rattle.std.specs.Prelude.{◌≡◌, true};

use super::{TARGET, TestBus, configure, plugged};
use std::alloc::Global;
use std::test::Fail;
use usb_transfer::{EndpointKind, EndpointPipe, PipeFault, UsableEndpoint};

/// The pipe from bulk IN 2.
fn pipe() -> EndpointPipe
    ensures { result.is_in ≡ true }
{
    let usable = UsableEndpoint {
        kind: EndpointKind::Bulk,
        max: 8,
        interface: 0,
    };
    EndpointPipe::new(TARGET, 2, usable, true)
}

/// What comes after a first packet for which memory was refused: what a second `receive` answers,
/// how many attempts it makes, and how many bytes come once the pipe was cleared.
fn behind_a_refusal(
    alloc: Global,
    bus: &mut TestBus,
    pipe: &mut EndpointPipe,
) -> Result<(Option<PipeFault>, u64, usize), PipeFault>
    requires { pipe.old.is_in ≡ true }
{
    let before = bus.attempts();
    let second = pipe.receive(alloc, bus, 1).err();
    let made = bus.attempts() - before;
    pipe.clear_halt(bus)?;
    Ok((second, made, pipe.receive(alloc, bus, 1)?.len()))
}

/// Whether the first packet comes, or what comes after a refusal is right.
fn came(alloc: Global, bus: &mut TestBus) -> Result<bool, PipeFault> {
    configure(bus)?;
    let mut pipe = pipe();
    match pipe.receive(alloc, bus, 1) {
        Ok(bytes) => Ok(bytes.as_slice() == [1, 2, 3, 4, 5, 6, 7, 8].as_slice()),
        Err(PipeFault::Memory) => {
            Ok(behind_a_refusal(alloc, bus, &mut pipe)? == (Some(PipeFault::Broken), 0, 8))
        }
        Err(fault) => Err(fault),
    }
}

#[test]
fn refused_memory_breaks_the_pipe(rt: HostRuntime) -> Result<(), Fail> {
    let mut bus = plugged(rt.alloc())?;
    assert!(rt; came(rt.alloc(), &mut bus)?);
    Ok(())
}
