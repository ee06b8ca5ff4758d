//! Records, and whole courses over a simulated bus.
mod course;
mod records;
