//! Tests of the host as records of bytes drive it: `usb_dialogue`.
#![tactic(auto)]

#[cfg(test)]
mod tests;

fn main() {}
