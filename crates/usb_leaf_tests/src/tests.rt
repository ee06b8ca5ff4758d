//! One module a crate. A test is a loop over rows of worked values.
mod check;
mod descriptor;
mod device;
mod packet;
mod port;
mod request;
mod resources;
mod wire;
