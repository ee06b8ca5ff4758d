//! A packet that a device has no memory for: the attempt was not made, and a fault stays.
use super::{TestBus, configure, plugged};
use arrayvec::ArrayVec;
use std::alloc::Global;
use std::test::Fail;
use usb_bus::{Attempt, Bus, BusFault, Destination, Outcome, Speed, Toggle};
use usb_port::PortPath;
use usb_request::feature::PORT_RESET;
use usb_sim::EndpointNumber;

/// OUT of two bytes at endpoint 2 of address 1.
fn out(bus: &mut TestBus) -> Result<Outcome, BusFault> {
    let mut bytes = ArrayVec::new();
    bytes.try_extend_from_slice(&[7, 8]).unwrap();
    bus.attempt(&Attempt::Out {
        to: Destination {
            address: 1,
            number: 2,
            speed: Speed::Full,
            max: 8,
        },
        toggle: Toggle::Zero,
        bytes,
    })
}

/// How many bytes the function took.
fn taken(bus: &TestBus) -> usize {
    let path = PortPath::root(1).unwrap();
    bus.sink(&path, EndpointNumber::new(2)).unwrap_or(&[]).len()
}

/// Whether each further attempt, event and line says the fault again, and nothing changes.
fn says_again(bus: &mut TestBus, fault: BusFault) -> bool {
    let before = bus.attempts();
    let mut says = true;
    for _ in 0..2u8 {
        says = says
            && out(bus).err() == Some(fault)
            && bus.apply_next_event().err() == Some(fault)
            && bus.put_line(b"end").err() == Some(fault);
    }
    says && bus.attempts() == before
}

/// Whether what came of the OUT is right: it is acknowledged and taken, is not made for want of
/// memory, or is made and has no line for want of memory.
fn is_right(bus: &mut TestBus) -> bool {
    match out(bus) {
        Ok(Outcome::Ack) => bus.attempts() == 5 && taken(bus) == 2,
        Err(BusFault::Memory) => {
            bus.attempts() == 4 && taken(bus) == 0 && says_again(bus, BusFault::Memory)
        }
        Err(BusFault::Failed) => {
            bus.attempts() == 5 && taken(bus) == 2 && says_again(bus, BusFault::Failed)
        }
        _ => false,
    }
}

/// Calls at root ports go on, also after a fault.
fn goes_on(bus: &mut TestBus) -> bool {
    let before = bus.root_status(1);
    bus.root_set(1, PORT_RESET);
    before == [3, 1, 0, 0] && bus.root_status(1) == [3, 1, 16, 0]
}

fn went(alloc: Global) -> Result<bool, Fail> {
    let mut bus = plugged(alloc)?;
    configure(&mut bus)?;
    Ok(is_right(&mut bus) && goes_on(&mut bus))
}

#[test]
fn a_sink_takes_data_or_is_refused_memory(rt: HostRuntime) -> Result<(), Fail> {
    assert!(rt; went(rt.alloc())?);
    Ok(())
}
