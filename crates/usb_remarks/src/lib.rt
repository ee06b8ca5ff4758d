//! Why a host refuses a device for its bytes alone: the rule that they break, and where.
//!
//! # What is proved
//!
//! - *A remark is the reader's own* (`text_remark`, `IsOwn` of `specs/Refusing.antt`): a text has
//!   one if and only if it is no configuration text for a host.
//! - *verdict* of usb_enum accepts such a device in no tier and at no port (`remark_of`). One with
//!   no remark is never `bad device` or `bad configuration`.
#![tactic(auto)]

mod remark;
mod text;
mod words;

pub use remark::{Remark, remark_of};
pub use text::TextRemark;
pub use words::push_remark;
