//! Tests of the crates up to simulated devices: check fields, packets, requests, descriptors,
//! ports, lines, resources and devices.
#![tactic(auto)]

#[cfg(test)]
mod tests;

fn main() {}
