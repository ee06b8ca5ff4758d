//! The setup data of a control transfer (9.3), a maker for each request that the host sends, and
//! the standard's numbers.
//!
//! # What is proved
//!
//! - Setup data and their eight bytes agree both ways (`Setup`). Each maker has the fields of its
//!   request (`specs/Codes.antt`).
//! - `is_reserved` says exactly which requests only the host itself may send.
#![tactic(auto)]

pub mod class_code;
pub mod descriptor_length;
pub mod descriptor_type;
pub mod endpoint_address;
pub mod feature;
pub mod hub_feature;
mod hub_makers;
mod makers;
mod read_request;
pub mod request_code;
pub mod request_type;
mod reserved;
mod setup;

pub use endpoint_address::EndpointAddress;
pub use read_request::ReadRequest;
pub use setup::Setup;
