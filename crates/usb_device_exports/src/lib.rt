//! The devices of a plan as a library for C: four calls at a handle (`c/usb_devices.h`). A program
//! that tests a host links them, and asks what it would ask `usbplan far`: lines of a host in, the
//! lines of `docs/output/live.md` out.
//!
//! # What is proved
//!
//! - The lines are answered as the controller side of the plan answers them (`usb_far`,
//!   *ServesHost*). What it says waits until it is fetched, each byte once and in order (*Asks* and
//!   *Fetches*, `specs/Linked.antt`).
//! - After a fault nothing more is done. Each later call of `ask` reports that fault, and what
//!   waits stays.
//!
//! - Each call does to the devices what `Devices` does, and returns its number
//!   (`specs/Exports.antt`).
//! - Into C's memory go the bytes that were said, each once and in order; nothing else.
//! - `usb_devices_close` alone ends the devices, and no call loses them.
//!
//! *Neither*: that memory was refused if `usb_devices_open` returns 1; that 13 is never returned.
//!
//! # What C owes, and nothing checks
//!
//! - A handle is zeros before its first call. C reads and writes nothing in it. It may be moved,
//!   and never copied.
//! - All calls at a handle come from one thread, one at a time, and none from a signal handler.
//! - No pointer is null, not even with a length of 0. The handle and a call's bytes lie apart.
//! - The heap's three functions, which C links, are one allocator.
#![tactic(auto)]

mod calls;
mod devices;
mod exports;
mod fault;
mod handle;
mod slot;
mod text;

pub use devices::Devices;
pub use exports::{usb_devices_ask, usb_devices_close, usb_devices_open, usb_devices_said};
pub use fault::OpenFault;
pub use handle::Handle;
pub use slot::Slot;
pub use usb_far::FarFault;
