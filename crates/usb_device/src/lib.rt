//! What a device on a bus is, and what it does with each packet: plain data, definitions, lemmas.
//!
//! # What is proved
//!
//! - A control transfer, and the data of an endpoint, go on packet by packet, whatever is lost: no
//!   byte twice, none left out (`control_read`, `control_write`, `source_on` in `proofs/progress`).
//! - The packets of an answer, end to end, are its bytes, as many as the host wants
//!   (`packets_joined-whole`).
//! - A device at the path of an address's one holder has that address (`one_is_held`).
//!
//! The *packet table* is `specs/Rows.antt`, the *request table* `specs/Request.antt`. What does as
//! they say is `usb_function`.
#![tactic(auto)]

mod alone;
mod answer;
mod bulk;
mod delivery;
mod effect;
mod endpoint_spec;
mod ends;
mod hearing;
mod holders;
mod lists;
mod own_request;
mod request;
mod spec;
mod transfer;
mod write;

pub use alone::{DeviceSide, HostSide};
pub use answer::{Answer, AnswerPid};
pub use bulk::{EndpointState, ServedEndpoint};
pub use delivery::{Content, Heard, Sent};
pub use effect::{Effect, keeps_enable};
pub use endpoint_spec::{EndpointData, EndpointSpec, EndpointSpecs};
pub use ends::{EndpointNumber, InEnd, OutHead, Pace};
pub use hearing::HeardPid;
pub use holders::{Holder, path_copy};
pub use lists::{Bytes, ConfigTexts, Packets, StringTexts, Texts};
pub use own_request::{OwnAnswer, OwnRequest, OwnRequests};
pub use request::{Reaction, Registers, Source};
pub use spec::Stalls;
pub use transfer::{InEndpoint, Progress, RememberedPacket};
pub use write::WriteData;
