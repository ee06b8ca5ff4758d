//! One module a crate.
mod bus;
mod devices;
mod pipe;
mod traces;
mod transaction;
