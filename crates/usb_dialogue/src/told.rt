//! Records of what was done.
ghost use Rattle.std.specs.Prelude.{◌≡◌, ◌++◌, ◌∷◌, [], OnOk, IfOk, flat_map};
ghost use Rattle.std.specs.Int.{to_le_bytes, w16, w64};
ghost use Rattle.usb_dialogue.specs.Told.{body_told, call_told, cause_names, cause_number};
ghost use Rattle.usb_dialogue.specs.Told.{config_records, device_body, device_records, done_status};
ghost use Rattle.usb_dialogue.specs.Told.{fault_status, finding_records, look_body, news_body};
ghost use Rattle.usb_dialogue.specs.Told.{news_bytes, number_of, poll_status, ports_number};
ghost use Rattle.usb_dialogue.specs.Told.{record_of, refused_body, request_number, round_status};
ghost use Rattle.usb_dialogue.specs.Told.{said_of, speed_number, status_by, string_records};
ghost use Rattle.usb_dialogue.specs.Told.{transfer_number, tree_records, units_bytes};

use crate::call::Done;
use crate::place::place_of;
use arrayvec::ArrayVec;
use std::alloc::{AllocError, Global};
use usb_bus::Bus;
use usb_enum::{Accepted, Cause, ConfigText, Finding, HubFacts, Request, StringUnits};
use usb_host::{Host, HostFault, Look, News, Round, TransferFault};
use usb_port::PortPath;

/// A call is done; the status of it.
const DONE: u8 = 32;

const DEVICE: u8 = 33;

const CONFIGURATION: u8 = 34;

const STRING: u8 = 35;

const REFUSED: u8 = 36;

/// Bytes that came from a device.
const CAME: u8 = 37;

/// What a look found.
const FOUND: u8 = 38;

const NEWS: u8 = 39;

/// How a call went; `None` if it was not done, since the bus had failed or memory was refused.
pub(crate) fn status_of(done: &Done) -> Option<u8>
    ensures { result ≡ done_status done.now }
{
    match done {
        Done::Round(round) => round_status(round),
        Done::Tree(tree) => status_by(tree),
        Done::Moved(moved) => status_by(moved),
        Done::Received(bytes) => status_by(bytes),
        Done::Polled(polled) => poll_status(polled),
        Done::Looked(look) => status_by(look),
        Done::News(_) => Some(0),
    }
}

/// 0 if the call was done, else the status of its fault.
fn status_by<T>(ended: &Result<T, HostFault>) -> Option<u8>
    ensures { result ≡ status_by 0 ended.now }
{
    match ended {
        Ok(_) => Some(0),
        Err(fault) => fault_status(*fault),
    }
}

/// 0 if a round worked on something, 1 if it was quiet; None after a fault.
fn round_status(ended: &Result<Round, HostFault>) -> Option<u8>
    ensures { result ≡ round_status ended.now }
{
    match ended {
        Ok(Round::Worked) => Some(0),
        Ok(Round::Quiet) => Some(1),
        Err(_) => None,
    }
}

/// 0 if a packet came, 1 if the endpoint had none, else the status of the fault.
fn poll_status(ended: &Result<Option<ArrayVec<u8, 64>>, HostFault>) -> Option<u8>
    ensures { result ≡ poll_status ended.now }
{
    match ended {
        Ok(Some(_)) => Some(0),
        Ok(None) => Some(1),
        Err(fault) => fault_status(*fault),
    }
}

/// The status of a transfer's fault, 2 to 10; None if the host stopped, the bus failed or memory
/// was refused.
fn fault_status(fault: HostFault) -> Option<u8>
    ensures { result ≡ fault_status fault }
{
    match fault {
        HostFault::Transfer(fault) => Some(transfer_number(fault)),
        HostFault::Stopped | HostFault::Bus(_) | HostFault::Memory => None,
    }
}

/// The status of a transfer's fault, 2 to 10.
fn transfer_number(fault: TransferFault) -> u8
    ensures { result ≡ transfer_number fault }
{
    match fault {
        TransferFault::NoDevice => 2,
        TransferFault::NoEndpoint => 3,
        TransferFault::Stalled => 4,
        TransferFault::Busy => 5,
        TransferFault::NoAnswer => 6,
        TransferFault::Broken => 7,
        TransferFault::Reserved => 8,
        TransferFault::NoPort => 9,
        TransferFault::NoInterface => 10,
    }
}

/// The records of a call that went so, by the host after it.
pub(crate) fn call_told<B: Bus>(
    alloc: Global,
    host: &Host<B>,
    done: &Done,
    status: u8,
) -> Result<Vec<u8>, AllocError>
    ensures { IfOk result (λ told. told.items ≡ call_told host.now done.now status) }
{
    let mut told = Vec::new(alloc);
    push_body(alloc, &mut told, host, done)?;
    push_record(&mut told, DONE, &[status])?;
    Ok(told)
}

/// Adds the records of what a call gave.
fn push_body<B: Bus>(
    alloc: Global,
    told: &mut Vec<u8>,
    host: &Host<B>,
    done: &Done,
) -> Result<(), AllocError>
    ensures { OnOk result (told.new.items ≡ told.old.items ++ body_told host.now done.now) }
{
    match done {
        Done::Tree(Ok(tree)) => push_tree(alloc, told, host, tree.entries()),
        Done::Received(Ok(bytes)) => push_record(told, CAME, bytes.as_slice()),
        Done::Polled(Ok(Some(bytes))) => push_record(told, CAME, bytes.as_slice()),
        Done::Looked(Ok(look)) => push_record(told, FOUND, look_body(look).as_slice()),
        Done::News(Some(news)) => push_record(told, NEWS, news_body(host, news).as_slice()),
        _ => Ok(()),
    }
}

/// Adds a record: its kind, how many bytes follow in four, and those.
fn push_record(told: &mut Vec<u8>, kind: u8, body: &[u8]) -> Result<(), AllocError>
    ensures { OnOk result (told.new.items ≡ told.old.items ++ record_of kind body.now) }
{
    let Ok(length) = u32::try_from(body.len()) else {
        return Err(AllocError);
    };
    told.push(kind)?;
    told.extend_from_slice(&length.to_le_bytes())?;
    told.extend_from_slice(body)?;
    Ok(())
}

/// Adds the records of each entry, by rising path.
fn push_tree<B: Bus>(
    alloc: Global,
    told: &mut Vec<u8>,
    host: &Host<B>,
    entries: &[(PortPath, Finding)],
) -> Result<(), AllocError>
    ensures { OnOk result (told.new.items ≡ told.old.items ++ tree_records host.now entries.now) }
{
    'entries: for (path, finding) in entries {
        push_entry(alloc, told, host, path, finding)?;
    }
    Ok(())
}

/// Adds the records of an entry: a device with its configurations and strings, or a refused one.
fn push_entry<B: Bus>(
    alloc: Global,
    told: &mut Vec<u8>,
    host: &Host<B>,
    path: &PortPath,
    finding: &Finding,
) -> Result<(), AllocError>
    ensures { OnOk result (told.new.items
        ≡ told.old.items ++ finding_records host.now path.now finding.now) }
{
    match finding {
        Finding::Device(device) => push_device(alloc, told, number_of(host, path), path, device),
        Finding::Refused(cause) => {
            let body = refused_body(alloc, said_of(host, path), path, *cause)?;
            push_record(told, REFUSED, body.as_slice())
        }
    }
}

/// The number of the device at a path.
fn number_of<B: Bus>(host: &Host<B>, path: &PortPath) -> u64
    ensures { result ≡ number_of host.now path.now }
{
    match host.device(path) {
        Some(device) => device.number(),
        None => 0,
    }
}

/// What the refused device at a path said of itself.
fn said_of<'a, B: Bus>(host: &'a Host<B>, path: &PortPath) -> &'a [u8]
    ensures { result.now ≡ said_of host.now path.now }
{
    match host.said(path) {
        Some(said) => said,
        None => &[],
    }
}

/// Adds the records of a device.
fn push_device(
    alloc: Global,
    told: &mut Vec<u8>,
    number: u64,
    path: &PortPath,
    device: &Accepted,
) -> Result<(), AllocError>
    ensures { OnOk result (told.new.items
        ≡ told.old.items ++ device_records number path.now device.now) }
{
    push_record(
        told,
        DEVICE,
        device_body(alloc, number, path, device)?.as_slice(),
    )?;
    push_configs(told, device.configs.as_slice())?;
    push_string(alloc, told, 0, &device.strings.manufacturer)?;
    push_string(alloc, told, 1, &device.strings.product)?;
    push_string(alloc, told, 2, &device.strings.serial_number)?;
    Ok(())
}

/// Where a device is, its address, speed, chosen configuration and ports, its number, its
/// descriptor.
fn device_body(
    alloc: Global,
    number: u64,
    path: &PortPath,
    device: &Accepted,
) -> Result<Vec<u8>, AllocError>
    ensures { IfOk result (λ body. body.items ≡ device_body number path.now device.now) }
{
    let mut body = Vec::new(alloc);
    body.extend_from_slice(&place_of(path))?;
    body.extend_from_slice(&[
        device.address.number(),
        speed_number(device.low),
        (device.chosen % 256) as u8,
        ports_number(&device.hub),
    ])?;
    body.extend_from_slice(&number.to_le_bytes())?;
    body.extend_from_slice(&device.bytes)?;
    Ok(body)
}

/// 1 for a low-speed device, 0 for one of full speed.
fn speed_number(low: bool) -> u8
    ensures { result ≡ speed_number low }
{
    if low { 1 } else { 0 }
}

/// The number of ports of a hub, 0 for any other device.
fn ports_number(hub: &Option<HubFacts>) -> u8
    ensures { result ≡ ports_number hub.now }
{
    match hub {
        Some(facts) => facts.ports,
        None => 0,
    }
}

/// Adds the record of each configuration.
fn push_configs(told: &mut Vec<u8>, texts: &[ConfigText]) -> Result<(), AllocError>
    ensures { OnOk result (told.new.items ≡ told.old.items ++ config_records texts.now) }
{
    'texts: for text in texts {
        push_record(told, CONFIGURATION, text.as_slice())?;
    }
    Ok(())
}

/// Adds the record of a string, if there is one.
fn push_string(
    alloc: Global,
    told: &mut Vec<u8>,
    which: u8,
    string: &Option<StringUnits>,
) -> Result<(), AllocError>
    ensures { OnOk result (told.new.items ≡ told.old.items ++ string_records which string.now) }
{
    match string {
        Some(units) => {
            let body = units_body(alloc, which, units.as_slice())?;
            push_record(told, STRING, body.as_slice())
        }
        None => Ok(()),
    }
}

/// Which string, and its units, low bytes first.
fn units_body(alloc: Global, which: u8, units: &[u16]) -> Result<Vec<u8>, AllocError>
    ensures { IfOk result (λ body. body.items ≡ (which ∷ []) ++ units_bytes units.now) }
{
    let mut body = Vec::new(alloc);
    body.push(which)?;
    'units: for unit in units {
        body.extend_from_slice(&unit.to_le_bytes())?;
    }
    Ok(body)
}

/// Where a refused device is, the cause, and what it said.
fn refused_body(
    alloc: Global,
    said: &[u8],
    path: &PortPath,
    cause: Cause,
) -> Result<Vec<u8>, AllocError>
    ensures { IfOk result (λ body. body.items ≡ refused_body said.now path.now cause) }
{
    let mut body = Vec::new(alloc);
    body.extend_from_slice(&place_of(path))?;
    body.extend_from_slice(&[cause_number(cause), cause_names(cause)])?;
    body.extend_from_slice(said)?;
    Ok(body)
}

/// The number of the cause of a refusal, 1 to 11.
fn cause_number(cause: Cause) -> u8
    ensures { result ≡ cause_number cause }
{
    match cause {
        Cause::Silent => 1,
        Cause::Busy => 2,
        Cause::Stalled(_) => 3,
        Cause::BadDevice => 4,
        Cause::TooDeep => 5,
        Cause::BadConfiguration(_) => 6,
        Cause::NoPower => 7,
        Cause::BadHub => 8,
        Cause::Lost => 9,
        Cause::NoAddress => 10,
        Cause::TooLarge => 11,
    }
}

/// The request or the configuration that a cause names.
fn cause_names(cause: Cause) -> u8
    ensures { result ≡ cause_names cause }
{
    match cause {
        Cause::Stalled(request) => request_number(request),
        Cause::BadConfiguration(index) => index,
        _ => 0,
    }
}

/// The number of the request that a device stalled, 0 to 3.
fn request_number(request: Request) -> u8
    ensures { result ≡ request_number request }
{
    match request {
        Request::Device => 0,
        Request::Address => 1,
        Request::Config => 2,
        Request::SetConfig => 3,
    }
}

/// What a look found.
fn look_body(look: &Look) -> ArrayVec<u8, 3>
    ensures { result.items ≡ look_body look.now }
{
    let mut body = ArrayVec::new();
    match look {
        Look::Empty => body.push(0),
        Look::Found => body.push(1),
        Look::Refused(cause) => {
            body.push(2);
            body.push(cause_number(*cause));
            body.push(cause_names(*cause));
        }
    }
    body
}

/// Whether a device left or arrived, its path, and its number if it is there.
fn news_body<B: Bus>(host: &Host<B>, news: &News) -> ArrayVec<u8, 17>
    ensures { result.items ≡ news_body host.now news.now }
{
    match news {
        News::Left(path) => news_bytes(0, path, 0),
        News::Arrived(path) => news_bytes(1, path, number_of(host, path)),
    }
}

/// The record of news: 0 left or 1 arrived, the place, and the device's number in eight bytes, low
/// byte first.
fn news_bytes(what: u8, path: &PortPath, number: u64) -> ArrayVec<u8, 17>
    ensures { result.items ≡ news_bytes what path.now number }
{
    let mut body = ArrayVec::new();
    body.push(what);
    body.try_extend_from_slice(&place_of(path)).unwrap();
    body.try_extend_from_slice(&number.to_le_bytes()).unwrap();
    body
}
