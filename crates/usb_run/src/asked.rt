//! What a run makes of an event that asks for something: one function for each request.
ghost use Rattle.std.specs.Prelude.{◌≡◌, Some, false};
ghost use Rattle.usb_world.specs.declared.event.Ask.{Ask};
ghost use Rattle.usb_host.specs.Ownership.{HostMapHolds};
ghost use Rattle.usb_run.specs.Run.{GoesOn, RunsOn};
ghost use Rattle.usb_run.specs.Transfers.{Does, Gives};

use crate::item::{Item, Task, TaskEnd};
use crate::news::all_news;
use crate::runs::{RunFault, listing};
use crate::transfer::{answered, counted};
use std::alloc::Global;
use usb_host::Host;
use usb_port::PortPath;
use usb_request::{EndpointAddress, ReadRequest};
use usb_sim::{Ask, SimBus, Trace};
use usb_table::EndpointChoice;
use usb_world::WriteRequest;

/// What the run makes of what is asked: a listing, the answer of a transfer or of a look, or news.
pub(crate) fn asked_item<T: Trace>(
    alloc: Global,
    host: &mut Host<SimBus<T>>,
    ask: Ask,
) -> Result<Option<Item>, RunFault>
    requires running { host.old.stopped ≡ false }
    ensures on { RunsOn (Does (Some ask)) host.old result host.new }
    ensures owning { HostMapHolds host.old → HostMapHolds host.new }
{
    match ask {
        Ask::Show { said } => Ok(Some(listing(alloc, host, said)?)),
        Ask::Send(path, bytes) => Ok(Some(send(host, path, bytes.as_slice())?)),
        Ask::Receive(path, packets) => Ok(Some(receive(host, path, packets)?)),
        Ask::Clear(path) => Ok(Some(clear(host, path)?)),
        Ask::SendTo(path, endpoint, bytes) => {
            Ok(Some(send_to(host, path, endpoint, bytes.as_slice())?))
        }
        Ask::ReceiveFrom(path, endpoint, packets) => {
            Ok(Some(receive_from(host, path, endpoint, packets)?))
        }
        Ask::Poll(path, endpoint) => Ok(Some(poll(host, path, endpoint)?)),
        Ask::ClearOf(path, endpoint) => Ok(Some(clear_of(host, path, endpoint)?)),
        Ask::SetInterface(path, interface, setting) => {
            Ok(Some(set_interface(host, path, interface, setting)?))
        }
        Ask::ControlIn(path, request) => Ok(Some(read(host, path, request)?)),
        Ask::ControlOut(path, request) => Ok(Some(write(host, path, &request)?)),
        Ask::Look(path) => Ok(Some(look(host, path)?)),
        Ask::News => Ok(Some(news(alloc, host)?)),
    }
}

/// Sends bytes to the device at a path.
fn send<T: Trace>(
    host: &mut Host<SimBus<T>>,
    path: PortPath,
    bytes: &[u8],
) -> Result<Item, RunFault>
    requires running { host.old.stopped ≡ false }
    ensures { GoesOn (Gives (Ask.Send path bytes.now)) host.old result host.new }
{
    let sent = answered(host.send(&path, bytes))?;
    let task = Task::Send(EndpointChoice::FirstBulk);
    Ok(Item::Answer(path, task, TaskEnd::Sent(counted(bytes.len(), sent))))
}

/// Receives at most this number of packets from the device at a path.
fn receive<T: Trace>(
    host: &mut Host<SimBus<T>>,
    path: PortPath,
    packets: u16,
) -> Result<Item, RunFault>
    requires running { host.old.stopped ≡ false }
    ensures { GoesOn (Gives (Ask.Receive path packets)) host.old result host.new }
{
    let received = answered(host.receive(&path, packets))?;
    let task = Task::Receive(EndpointChoice::FirstBulk);
    Ok(Item::Answer(path, task, TaskEnd::Received(received)))
}

/// Clears the halts of the device at a path.
fn clear<T: Trace>(host: &mut Host<SimBus<T>>, path: PortPath) -> Result<Item, RunFault>
    requires running { host.old.stopped ≡ false }
    ensures { GoesOn (Gives (Ask.Clear path)) host.old result host.new }
{
    let cleared = answered(host.clear_halt(&path))?;
    Ok(Item::Answer(path, Task::Clear, TaskEnd::Done(cleared)))
}

/// Reads from endpoint 0 of the device at a path.
fn read<T: Trace>(
    host: &mut Host<SimBus<T>>,
    path: PortPath,
    request: ReadRequest,
) -> Result<Item, RunFault>
    requires running { host.old.stopped ≡ false }
    ensures { GoesOn (Gives (Ask.ControlIn path request)) host.old result host.new }
{
    let bytes = answered(host.control_in(&path, request.setup()))?;
    Ok(Item::Answer(path, Task::ControlIn, TaskEnd::Received(bytes)))
}

/// Writes to endpoint 0 of the device at a path.
fn write<T: Trace>(
    host: &mut Host<SimBus<T>>,
    path: PortPath,
    request: &WriteRequest,
) -> Result<Item, RunFault>
    requires running { host.old.stopped ≡ false }
    ensures { GoesOn (Gives (Ask.ControlOut path request.now)) host.old result host.new }
{
    let bytes = request.bytes();
    let written = answered(host.control_out(&path, request.setup(), bytes))?;
    let end = TaskEnd::Sent(counted(bytes.len(), written));
    Ok(Item::Answer(path, Task::ControlOut, end))
}

/// Sends bytes to an endpoint of the device at a path.
fn send_to<T: Trace>(
    host: &mut Host<SimBus<T>>,
    path: PortPath,
    endpoint: EndpointAddress,
    bytes: &[u8],
) -> Result<Item, RunFault>
    requires running { host.old.stopped ≡ false }
    ensures { GoesOn (Gives (Ask.SendTo path endpoint bytes.now)) host.old result host.new }
{
    let sent = answered(host.send_to(&path, endpoint, bytes))?;
    let task = Task::Send(EndpointChoice::At(endpoint));
    Ok(Item::Answer(path, task, TaskEnd::Sent(counted(bytes.len(), sent))))
}

/// Receives at most this number of packets from an endpoint of the device at a path.
fn receive_from<T: Trace>(
    host: &mut Host<SimBus<T>>,
    path: PortPath,
    endpoint: EndpointAddress,
    packets: u16,
) -> Result<Item, RunFault>
    requires running { host.old.stopped ≡ false }
    ensures { GoesOn (Gives (Ask.ReceiveFrom path endpoint packets)) host.old result host.new }
{
    let received = answered(host.receive_from(&path, endpoint, packets))?;
    let task = Task::Receive(EndpointChoice::At(endpoint));
    Ok(Item::Answer(path, task, TaskEnd::Received(received)))
}

/// Asks an endpoint of the device at a path once for a packet.
fn poll<T: Trace>(
    host: &mut Host<SimBus<T>>,
    path: PortPath,
    endpoint: EndpointAddress,
) -> Result<Item, RunFault>
    requires running { host.old.stopped ≡ false }
    ensures { GoesOn (Gives (Ask.Poll path endpoint)) host.old result host.new }
{
    let polled = answered(host.poll(&path, endpoint))?;
    Ok(Item::Answer(path, Task::Poll(endpoint), TaskEnd::Polled(polled)))
}

/// Clears the halt of an endpoint of the device at a path.
fn clear_of<T: Trace>(
    host: &mut Host<SimBus<T>>,
    path: PortPath,
    endpoint: EndpointAddress,
) -> Result<Item, RunFault>
    requires running { host.old.stopped ≡ false }
    ensures { GoesOn (Gives (Ask.ClearOf path endpoint)) host.old result host.new }
{
    let cleared = answered(host.clear_halt_of(&path, endpoint))?;
    Ok(Item::Answer(path, Task::ClearOf(endpoint), TaskEnd::Done(cleared)))
}

/// Chooses an alternate setting of an interface of the device at a path.
fn set_interface<T: Trace>(
    host: &mut Host<SimBus<T>>,
    path: PortPath,
    interface: u8,
    setting: u8,
) -> Result<Item, RunFault>
    requires running { host.old.stopped ≡ false }
    ensures { GoesOn (Gives (Ask.SetInterface path interface setting)) host.old result host.new }
{
    let set = answered(host.set_interface(&path, interface, setting))?;
    let task = Task::SetInterface(interface, setting);
    Ok(Item::Answer(path, task, TaskEnd::Done(set)))
}

/// Looks once more at what is at a port.
fn look<T: Trace>(host: &mut Host<SimBus<T>>, path: PortPath) -> Result<Item, RunFault>
    requires running { host.old.stopped ≡ false }
    ensures on { RunsOn (Gives (Ask.Look path)) host.old result host.new }
    ensures owning { HostMapHolds host.old → HostMapHolds host.new }
{
    let looked = answered(host.look(&path))?;
    Ok(Item::Answer(path, Task::Look, TaskEnd::Looked(looked)))
}

/// Reports which devices left and which arrived since this was last asked.
fn news<T: Trace>(alloc: Global, host: &mut Host<SimBus<T>>) -> Result<Item, RunFault>
    requires running { host.old.stopped ≡ false }
    ensures on { RunsOn (Gives Ask.News) host.old result host.new }
    ensures owning { HostMapHolds host.old → HostMapHolds host.new }
{
    let news = all_news(alloc, host)?;
    Ok(Item::News(news))
}
