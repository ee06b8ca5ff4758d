//! Control transfers, polls and bulk transfers over simulated buses.
mod bulk;
mod control;
mod faults;
mod plans;
mod polls;
mod ready;
mod resent;
mod writes;
