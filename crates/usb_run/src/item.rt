//! What a run makes: listings, news, and what came of each task.

use arrayvec::ArrayVec;
use usb_host::{Look, News, TransferFault, Tree};
use usb_port::PortPath;
use usb_request::EndpointAddress;
use usb_table::EndpointChoice;
use usb_text::Said;

/// What a run made.
#[derive(Debug, Drop)]
pub enum Item {
    /// What the host had found, how many events had been taken, and what the refused devices had
    /// said of themselves, if that was asked for.
    Listing(Tree, u64, Said),
    /// Which devices left and which arrived since this was last asked.
    News(Vec<News>),
    /// A task at a path, and how it ended.
    Answer(PortPath, Task, TaskEnd),
}

/// What was asked of the device or of the port at a path, without the bytes that went there.
#[derive(Clone, Copy, Debug, PartialEq, Eq)]
pub enum Task {
    /// To send bytes to an endpoint.
    Send(EndpointChoice),
    /// To receive from an endpoint.
    Receive(EndpointChoice),
    /// To clear the halts of the bulk endpoints.
    Clear,
    /// To clear the halt of an endpoint.
    ClearOf(EndpointAddress),
    /// To ask an endpoint once for a packet.
    Poll(EndpointAddress),
    /// To choose an alternate setting: the interface's number, then the setting's.
    SetInterface(u8, u8),
    /// To read from endpoint 0.
    ControlIn,
    /// To write to endpoint 0.
    ControlOut,
    /// To look once more at what is there.
    Look,
}

/// How a task ended.
#[derive(Debug, Drop)]
pub enum TaskEnd {
    /// With how many bytes were sent.
    Sent(Result<u64, TransferFault>),
    /// With the bytes that were received.
    Received(Result<Vec<u8>, TransferFault>),
    /// Done.
    Done(Result<(), TransferFault>),
    /// With the packet that an endpoint gave, None where it had none.
    Polled(Result<Option<ArrayVec<u8, 64>>, TransferFault>),
    /// With what is listed at the port.
    Looked(Result<Look, TransferFault>),
}
