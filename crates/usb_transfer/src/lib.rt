//! Transactions (8.5), and transfers over them: at control endpoints (8.5.3), at bulk and interrupt
//! endpoints (`EndpointPipe`; 5.7, 5.8), and at a hub's status endpoint (`InterruptPipe`).
//!
//! In a transaction one packet is moved once, or a fault is returned. Three errors in a row end
//! one, and so do 256 NAKs and discarded repeats.
//!
//! # What is proved
//!
//! - `setup` makes at most 3 attempts, `data_in`, `data_out` and `poll_in` at most 768. A
//!   transaction makes the same attempt each time, and no other step
//!   (`what_a_transaction_attempts`).
//! - Over any bus, the toggle flips exactly if the call is done (`data_in`, `data_out`).
//! - If no address was held twice, and host and device were as far as each other, the packet that
//!   came is the next one (*SourceIn*, *SourcePolled*).
//!
//! `SetsUp`, `AsksIn`, `SendsOut` and `PollsIn` have all that a call says (`specs/Calls.antt`).
//!
//! - `control_in`: the bytes are the first ones of the device's answer when it accepted the
//!   request.
//! - `control_out`: the device has taken the data once; if the call failed, all of them or none.
//! - `EndpointPipe`: each byte that was sent or received went once, in order, and none was left
//!   out. So did each packet that a poll reported.
//!
//! Each call has one record (`specs/Transfers.antt`).
#![tactic(auto)]

mod attempt;
mod condition;
mod control;
mod done;
mod endpoint;
mod fault;
mod heard_outcome;
mod interrupt;
mod laws;
mod packets;
mod poll;
mod read;
mod rows;
mod set_up;
mod stage;
mod target;
mod trans_fault;
mod transaction_laws;
mod transaction_rows;
mod tries;
mod write;

pub use control::{control_in, control_none, control_out};
pub use done::Done;
pub use endpoint::EndpointPipe;
pub use fault::PipeFault;
pub use interrupt::InterruptPipe;
pub use laws::{
    reports_join, what_a_control_transfer_attempts, what_a_pipe_attempts, what_is_so_while_sending,
    who_had_the_address_of_a_poll, who_had_the_address_of_a_transfer,
};
pub use poll::poll_in;
pub use read::data_in;
pub use set_up::setup;
pub use target::Target;
pub use trans_fault::TransFault;
pub use transaction_laws::{
    address_losses_of_a_transaction, what_a_transaction_attempts, what_is_so_between_bulk_attempts,
    who_had_the_address,
};
pub use transaction_rows::{data_in_row, data_out_row};
pub use usb_bus::{Bus, BusFault};
pub use usb_descriptor::{EndpointKind, UsableEndpoint};
pub use usb_packet::Toggle;
pub use usb_request::Setup;
pub use write::data_out;
