//! Tests of the host's requests, of the enumerator and of the host's rounds, also over a hub that
//! reports what no simulated one does.
#![tactic(auto)]

#[cfg(test)]
mod tests;

fn main() {}
