//! Simulated devices, packet by packet.
mod attempts;
mod bulk;
mod described;
mod hubs;
mod kinds;
mod packets;
mod requests;
mod steps;
mod trees;
mod writes;
