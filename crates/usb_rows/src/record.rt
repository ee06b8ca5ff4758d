//! The records of a driver's calls, and the numbers in them.
use std::alloc::{AllocError, Global};
use usb_enum::{Cause, Request};
use usb_host::TransferFault;
use usb_sim::Ask;

/// What the record of a call has, but for the statuses of the root ports, which are 0 here.
#[derive(Drop)]
struct Call<'a> {
    kind: u8,
    path: &'a [u8],
    at: u8,
    setting: u8,
    packets: u16,
    setup: [u8; 8],
    bytes: &'a [u8],
}

impl<'a> Call<'a> {
    /// The call of a kind at a path.
    fn at(kind: u8, path: &'a [u8]) -> Self {
        Call {
            kind,
            path,
            at: 0,
            setting: 0,
            packets: 0,
            setup: [0; 8],
            bytes: &[],
        }
    }

    fn record(&self, alloc: Global) -> Result<Vec<u8>, AllocError> {
        let mut record = Vec::new(alloc);
        record.push(self.kind)?;
        record.push(self.path.len().to_le_bytes()[0])?;
        record.extend_from_slice(self.path)?;
        'zeros: for _ in self.path.len()..7 {
            record.push(0)?;
        }
        record.extend_from_slice(&[self.at, self.setting, 0])?;
        record.extend_from_slice(&self.packets.to_le_bytes())?;
        record.extend_from_slice(&[0, 0])?;
        record.extend_from_slice(&self.setup)?;
        record.extend_from_slice(&[0; 28])?;
        record.extend_from_slice(self.bytes)?;
        Ok(record)
    }
}

/// The record of the call that does what is asked.
pub(crate) fn record_of(alloc: Global, ask: &Ask) -> Result<Vec<u8>, AllocError> {
    call_of(ask).record(alloc)
}

fn call_of(ask: &Ask) -> Call<'_> {
    match ask {
        Ask::Show { .. } => Call::at(17, &[]),
        Ask::News => Call::at(29, &[]),
        Ask::Clear(path) => Call::at(20, path.numbers()),
        Ask::Look(path) => Call::at(28, path.numbers()),
        Ask::Send(path, bytes) => Call {
            bytes: bytes.as_slice(),
            ..Call::at(18, path.numbers())
        },
        Ask::Receive(path, packets) => Call {
            packets: *packets,
            ..Call::at(19, path.numbers())
        },
        Ask::SetInterface(path, interface, setting) => Call {
            at: *interface,
            setting: *setting,
            ..Call::at(25, path.numbers())
        },
        Ask::ControlIn(path, request) => Call {
            setup: request.setup().to_bytes(),
            ..Call::at(26, path.numbers())
        },
        Ask::ControlOut(path, request) => Call {
            setup: request.setup().to_bytes(),
            bytes: request.bytes(),
            ..Call::at(27, path.numbers())
        },
        other => call_to(other),
    }
}

/// The call that does what is asked of an endpoint.
fn call_to(ask: &Ask) -> Call<'_> {
    match ask {
        Ask::SendTo(path, endpoint, bytes) => Call {
            at: endpoint.get(),
            bytes: bytes.as_slice(),
            ..Call::at(21, path.numbers())
        },
        Ask::ReceiveFrom(path, endpoint, packets) => Call {
            at: endpoint.get(),
            packets: *packets,
            ..Call::at(22, path.numbers())
        },
        Ask::Poll(path, endpoint) => Call {
            at: endpoint.get(),
            ..Call::at(23, path.numbers())
        },
        Ask::ClearOf(path, endpoint) => Call {
            at: endpoint.get(),
            ..Call::at(24, path.numbers())
        },
        _ => Call::at(0, &[]),
    }
}

/// A report's kind, its body, and the reports after it.
pub(crate) fn cut(told: &[u8]) -> Option<(u8, &[u8], &[u8])> {
    let (kind, rest) = told.split_first()?;
    let (length, rest) = rest.split_first_chunk::<4>()?;
    let length = u32::from_le_bytes(*length) as usize;
    Some((*kind, rest.get(..length)?, rest.get(length..)?))
}

/// The fault of a status; `None` of a call that is done.
pub(crate) fn fault_of(status: u8) -> Option<TransferFault> {
    match status {
        2 => Some(TransferFault::NoDevice),
        3 => Some(TransferFault::NoEndpoint),
        4 => Some(TransferFault::Stalled),
        5 => Some(TransferFault::Busy),
        6 => Some(TransferFault::NoAnswer),
        7 => Some(TransferFault::Broken),
        8 => Some(TransferFault::Reserved),
        9 => Some(TransferFault::NoPort),
        10 => Some(TransferFault::NoInterface),
        _ => None,
    }
}

/// The cause of these two bytes.
pub(crate) fn cause_of(cause: u8, of: u8) -> Option<Cause> {
    Some(match cause {
        1 => Cause::Silent,
        2 => Cause::Busy,
        3 => Cause::Stalled(request_of(of)?),
        4 => Cause::BadDevice,
        5 => Cause::TooDeep,
        6 => Cause::BadConfiguration(of),
        7 => Cause::NoPower,
        8 => Cause::BadHub,
        9 => Cause::Lost,
        10 => Cause::NoAddress,
        11 => Cause::TooLarge,
        _ => return None,
    })
}

fn request_of(of: u8) -> Option<Request> {
    match of {
        0 => Some(Request::Device),
        1 => Some(Request::Address),
        2 => Some(Request::Config),
        3 => Some(Request::SetConfig),
        _ => None,
    }
}
