//! One module a crate, and one for a port that is disabled behind the host. A test is a loop over rows of worked
//! values.
mod control;
mod devices;
mod disabled;
mod enumeration;
mod external;
mod host;
mod hub;
mod look;
mod news;
mod polls;
mod quirks;
mod second;
mod wide;
