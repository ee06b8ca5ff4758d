//! Transfers of endpoint 0 and of endpoints by their addresses, and settings of interfaces, over any bus.
ghost use Rattle.std.specs.Prelude.{◌≡◌, IfOk, length, true};
ghost use Rattle.usb_run.specs.Transfers.{Gives};
ghost use Rattle.usb_world.specs.declared.event.Ask.{Ask};
ghost use Rattle.usb_live.specs.Course.{IsShown, settles};
ghost use Rattle.usb_run.specs.declared.item.Task.{Task};
ghost use Rattle.usb_run.specs.{At};
ghost use Rattle.usb_live.specs.declared.owed.EndOwed.{EndOwed};
ghost use Rattle.usb_live.specs.declared.owed.Owed.{Owed};

use usb_bus::Bus;
use usb_port::PortPath;
use usb_request::{EndpointAddress, ReadRequest};
use usb_run::{EndpointChoice, Host, Item, RunFault, Task, TaskEnd, answered, counted};
use usb_wire::ControlWrite;

/// Reads from endpoint 0 of the device at a path.
pub(crate) fn read<B: Bus>(
    host: &mut Host<B>,
    path: PortPath,
    request: ReadRequest,
) -> Result<Item, RunFault>
    ensures owed { IfOk result (λ item.
        settles (Owed.Answer path Task.ControlIn (EndOwed.ReceivedWithin request.length)) item
        ≡ true) }
    ensures shown { IfOk result (IsShown host.new.options) }
    ensures options { host.new.options ≡ host.old.options }
    ensures does { B.modelled ≡ true → Gives (Ask.ControlIn path request) host.old result host.new }
{
    let bytes = answered(host.control_in(&path, request.setup()))?;
    Ok(Item::Answer(path, Task::ControlIn, TaskEnd::Received(bytes)))
}

/// Writes to endpoint 0 of the device at a path.
pub(crate) fn write<B: Bus>(
    host: &mut Host<B>,
    path: PortPath,
    request: &ControlWrite,
) -> Result<Item, RunFault>
    ensures owed { IfOk result (λ item. settles (Owed.Answer path Task.ControlOut
        (EndOwed.Sent (length request.now.bytes))) item ≡ true) }
    ensures shown { IfOk result (IsShown host.new.options) }
    ensures options { host.new.options ≡ host.old.options }
    ensures does { B.modelled ≡ true → Gives (Ask.ControlOut path
        (record { setup = request.now.setup; bytes = request.now.bytes }))
        host.old result host.new }
{
    let bytes = request.bytes();
    let written = answered(host.control_out(&path, request.setup(), bytes))?;
    let end = TaskEnd::Sent(counted(bytes.len(), written));
    Ok(Item::Answer(path, Task::ControlOut, end))
}

/// Sends bytes to an endpoint of the device at a path.
pub(crate) fn send_to<B: Bus>(
    host: &mut Host<B>,
    path: PortPath,
    endpoint: EndpointAddress,
    bytes: &[u8],
) -> Result<Item, RunFault>
    ensures owed { IfOk result (λ item. settles (Owed.Answer path (Task.Send (At endpoint))
        (EndOwed.Sent (length bytes.now))) item ≡ true) }
    ensures shown { IfOk result (IsShown host.new.options) }
    ensures options { host.new.options ≡ host.old.options }
    ensures does { B.modelled ≡ true →
        Gives (Ask.SendTo path endpoint bytes.now) host.old result host.new }
{
    let sent = answered(host.send_to(&path, endpoint, bytes))?;
    let task = Task::Send(EndpointChoice::At(endpoint));
    Ok(Item::Answer(path, task, TaskEnd::Sent(counted(bytes.len(), sent))))
}

/// Receives at most this number of packets from an endpoint of the device at a path.
pub(crate) fn receive_from<B: Bus>(
    host: &mut Host<B>,
    path: PortPath,
    endpoint: EndpointAddress,
    packets: u16,
) -> Result<Item, RunFault>
    ensures owed { IfOk result (λ item.
        settles (Owed.Answer path (Task.Receive (At endpoint)) EndOwed.Received) item ≡ true) }
    ensures shown { IfOk result (IsShown host.new.options) }
    ensures options { host.new.options ≡ host.old.options }
    ensures does { B.modelled ≡ true
        → Gives (Ask.ReceiveFrom path endpoint packets) host.old result host.new }
{
    let received = answered(host.receive_from(&path, endpoint, packets))?;
    let task = Task::Receive(EndpointChoice::At(endpoint));
    Ok(Item::Answer(path, task, TaskEnd::Received(received)))
}

/// Asks an endpoint of the device at a path once for a packet.
pub(crate) fn poll<B: Bus>(
    host: &mut Host<B>,
    path: PortPath,
    endpoint: EndpointAddress,
) -> Result<Item, RunFault>
    ensures owed { IfOk result (λ item.
        settles (Owed.Answer path (Task.Poll endpoint) EndOwed.Polled) item ≡ true) }
    ensures shown { IfOk result (IsShown host.new.options) }
    ensures options { host.new.options ≡ host.old.options }
    ensures does { B.modelled ≡ true → Gives (Ask.Poll path endpoint) host.old result host.new }
{
    let polled = answered(host.poll(&path, endpoint))?;
    Ok(Item::Answer(path, Task::Poll(endpoint), TaskEnd::Polled(polled)))
}

/// Clears the halt of an endpoint of the device at a path.
pub(crate) fn clear_of<B: Bus>(
    host: &mut Host<B>,
    path: PortPath,
    endpoint: EndpointAddress,
) -> Result<Item, RunFault>
    ensures owed { IfOk result (λ item.
        settles (Owed.Answer path (Task.ClearOf endpoint) EndOwed.Done) item ≡ true) }
    ensures shown { IfOk result (IsShown host.new.options) }
    ensures options { host.new.options ≡ host.old.options }
    ensures does { B.modelled ≡ true → Gives (Ask.ClearOf path endpoint) host.old result host.new }
{
    let cleared = answered(host.clear_halt_of(&path, endpoint))?;
    Ok(Item::Answer(path, Task::ClearOf(endpoint), TaskEnd::Done(cleared)))
}

/// Chooses an alternate setting of an interface of the device at a path.
pub(crate) fn set_interface<B: Bus>(
    host: &mut Host<B>,
    path: PortPath,
    interface: u8,
    setting: u8,
) -> Result<Item, RunFault>
    ensures owed { IfOk result (λ item.
        settles (Owed.Answer path (Task.SetInterface interface setting) EndOwed.Done) item ≡ true) }
    ensures shown { IfOk result (IsShown host.new.options) }
    ensures options { host.new.options ≡ host.old.options }
    ensures does { B.modelled ≡ true
        → Gives (Ask.SetInterface path interface setting) host.old result host.new }
{
    let set = answered(host.set_interface(&path, interface, setting))?;
    let task = Task::SetInterface(interface, setting);
    Ok(Item::Answer(path, task, TaskEnd::Done(set)))
}
