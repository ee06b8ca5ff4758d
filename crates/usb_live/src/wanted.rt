//! What is requested of the host, done over any bus.
ghost use Rattle.std.specs.Prelude.{◌≡◌, IfOk, IfSome, true};
ghost use Rattle.usb_live.specs.Course.{IsShown, ListsEntries};
ghost use Rattle.usb_live.specs.Wanted.{DoesWanted, IsOwed};

use crate::transfer::{clear_of, poll, read, receive_from, send_to, set_interface, write};
use std::alloc::Global;
use usb_bus::Bus;
use usb_run::{
    EndpointChoice, Host, Item, RunFault, Said, Task, TaskEnd, all_news, answered, counted,
};
use usb_wire::Answer;

/// Does what is requested, once. Returns the item that is reported of it, if there is one.
///
/// # Errors
///
/// `LimitReached` or `TraceFailed` if the bus has failed, `Memory` if memory was refused.
pub(crate) fn item_of<B: Bus>(
    alloc: Global,
    host: &mut Host<B>,
    answer: Answer,
) -> Result<Option<Item>, RunFault>
    // A listing is of what the host has found.
    ensures lists { IfOk result (ListsEntries answer host.new.entries) }
    ensures shown { IfOk result (λ item. IfSome item (IsShown host.new.options)) }
    ensures options { host.new.options ≡ host.old.options }
    // The item is the one that is owed.
    ensures owed { IfOk result (IsOwed answer) }
    // Over a bus that does what its world does, exactly that was done.
    ensures does { B.modelled ≡ true → DoesWanted answer host.old result host.new }
{
    match answer {
        Answer::Show | Answer::End => match host.tree() {
            Ok(tree) => Ok(Some(Item::Listing(tree, 0, Said::none(alloc)))),
            Err(_) => Err(RunFault::Memory),
        },
        Answer::Send { path, bytes } => {
            let sent = answered(host.send(&path, bytes.as_slice()))?;
            let task = Task::Send(EndpointChoice::FirstBulk);
            Ok(Some(Item::Answer(path, task, TaskEnd::Sent(counted(bytes.len(), sent)))))
        }
        Answer::Receive { path, packets } => {
            let received = answered(host.receive(&path, packets))?;
            let task = Task::Receive(EndpointChoice::FirstBulk);
            Ok(Some(Item::Answer(path, task, TaskEnd::Received(received))))
        }
        Answer::Clear(path) => {
            let cleared = answered(host.clear_halt(&path))?;
            Ok(Some(Item::Answer(path, Task::Clear, TaskEnd::Done(cleared))))
        }
        Answer::SendTo {
            path,
            endpoint,
            bytes,
        } => Ok(Some(send_to(host, path, endpoint, bytes.as_slice())?)),
        Answer::ReceiveFrom {
            path,
            endpoint,
            packets,
        } => Ok(Some(receive_from(host, path, endpoint, packets)?)),
        Answer::Poll { path, endpoint } => Ok(Some(poll(host, path, endpoint)?)),
        Answer::ClearOf { path, endpoint } => Ok(Some(clear_of(host, path, endpoint)?)),
        Answer::Interface {
            path,
            interface,
            setting,
        } => Ok(Some(set_interface(host, path, interface, setting)?)),
        Answer::ControlIn { path, request } => Ok(Some(read(host, path, request)?)),
        Answer::ControlOut { path, request } => Ok(Some(write(host, path, &request)?)),
        Answer::Look(path) => {
            let looked = answered(host.look(&path))?;
            Ok(Some(Item::Answer(path, Task::Look, TaskEnd::Looked(looked))))
        }
        Answer::News => Ok(Some(Item::News(all_news(alloc, host)?))),
        _ => Ok(None),
    }
}
