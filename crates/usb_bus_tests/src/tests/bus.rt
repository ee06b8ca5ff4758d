//! Simulated buses of plans, and writers and readers that fail.
mod damage;
mod hubs;
mod memory;
mod names;
mod plans;
mod roots;
mod row;
mod step;
mod watched;
mod writers;
