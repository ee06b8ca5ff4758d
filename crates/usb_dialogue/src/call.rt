//! A want, done over any bus.
ghost use Rattle.std.specs.Prelude.{◌≡◌, true};
ghost use Rattle.usb_dialogue.specs.Calls.{Makes, Tells};

use crate::Want;
use arrayvec::ArrayVec;
use usb_bus::Bus;
use usb_host::{Host, HostFault, Look, News, Round, Tree};

/// What a call of a host gave.
#[derive(Debug, Drop)]
pub(crate) enum Done {
    /// `Host::round`.
    Round(Result<Round, HostFault>),
    /// `Host::tree`.
    Tree(Result<Tree, HostFault>),
    /// A call that gives nothing else.
    Moved(Result<(), HostFault>),
    /// A call that gives bytes.
    Received(Result<Vec<u8>, HostFault>),
    /// `Host::poll`.
    Polled(Result<Option<ArrayVec<u8, 64>>, HostFault>),
    /// `Host::look`.
    Looked(Result<Look, HostFault>),
    /// `Host::next_news`.
    News(Option<News>),
}

/// Does what is wanted, once.
pub(crate) fn made<B: Bus>(host: &mut Host<B>, want: &Want) -> Done
    ensures makes { Makes B.modelled want.now host.old result host.new }
    // Over a bus that does what its world does, exactly that was done.
    ensures tells { B.modelled ≡ true → Tells want.now host.old result host.new }
{
    match want {
        Want::Round => Done::Round(host.round()),
        Want::Tree => Done::Tree(host.tree()),
        Want::Send { path, bytes } => Done::Moved(host.send(path, bytes.as_slice())),
        Want::Receive { path, packets } => Done::Received(host.receive(path, *packets)),
        Want::ClearHalt { path } => Done::Moved(host.clear_halt(path)),
        Want::SendTo {
            path,
            endpoint,
            bytes,
        } => Done::Moved(host.send_to(path, *endpoint, bytes.as_slice())),
        Want::ReceiveFrom {
            path,
            endpoint,
            packets,
        } => Done::Received(host.receive_from(path, *endpoint, *packets)),
        Want::Poll { path, endpoint } => Done::Polled(host.poll(path, *endpoint)),
        Want::ClearHaltOf { path, endpoint } => Done::Moved(host.clear_halt_of(path, *endpoint)),
        Want::SetInterface {
            path,
            interface,
            setting,
        } => Done::Moved(host.set_interface(path, *interface, *setting)),
        Want::ControlIn { path, request } => {
            Done::Received(host.control_in(path, request.setup()))
        }
        Want::ControlOut { path, request } => {
            Done::Moved(host.control_out(path, request.setup(), request.bytes()))
        }
        Want::Look { path } => Done::Looked(host.look(path)),
        Want::News => Done::News(host.next_news()),
    }
}
