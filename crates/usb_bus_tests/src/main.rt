//! Tests of buses, transactions and pipes, on simulated buses of plans, with writers and readers
//! that fail.
#![tactic(auto)]

#[cfg(test)]
mod tests;

fn main() {}
