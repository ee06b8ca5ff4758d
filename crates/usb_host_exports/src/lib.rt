//! The host as a library for C: seven calls at a handle (`c/usb_host.c`). `usb_dialogue` has the
//! records' bytes.
//!
//! A call returns 0 if it is done, 1 if nothing is asked, or 40 to 47 of `enum usb_status`
//! (`c/usb_host.h`). From 40 on nothing changed.
//!
//! # What is proved
//!
//! - Each call does to the host what the driver's call does, and returns its number
//!   (`specs/Exports.antt`).
//! - Into C's memory go a question's 72 bytes, if 0 is returned, and the bytes of records that
//!   there is room for; nothing else.
//! - `usb_handle_close` alone ends a host, and no call loses one.
//!
//! *Neither*: that memory was refused if 40 is returned.
//!
//! # What C owes, and nothing checks
//!
//! - A handle is zeros before its first call. C reads and writes nothing in it. It may be moved,
//!   and never copied.
//! - There is one call at a time at a handle, and none from a signal handler. Another thread may
//!   take it over if a lock, or a thread's start or end, is between.
//! - No pointer is null, not even with a length of 0. The handle and a call's bytes lie apart.
//! - The heap's three functions, which C links, are one allocator.
#![tactic(auto)]

mod calls;
mod exports;
mod handle;
mod slot;

pub use exports::{
    usb_handle_answer, usb_handle_answer_row, usb_handle_begin, usb_handle_close, usb_handle_open,
    usb_handle_question, usb_handle_told,
};
pub use handle::Handle;
pub use slot::Slot;
