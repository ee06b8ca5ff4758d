//! Drivers over a host: a boot keyboard and a disk, for the devices of a plan or of a controller
//! program.
//!
//! # What is proved
//!
//! Each call of a driver says which calls of the host it made, in their order, and how its answer
//! comes from theirs (`specs/Calls.antt`).
//!
//! - **A report is one poll** (`Keyboard::report`, *AsksReport*).
//! - **A command goes out once, with a tag of its own** (`Disk::read`, `Disk::write`; *Takes*,
//!   *Puts*). The call returns `Ok` only if its status says so and all the bytes moved.
//! - Once its device is gone, a driver says so and attempts nothing (clause `gone`).
//!
//! *Only tested*: what the program prints.
#![tactic(auto)]

mod capacity;
mod command;
mod disk;
mod fault;
mod found;
mod interface;
mod job;
mod keyboard;
mod live;
mod place;
mod report;
mod request;
mod status;
mod transport;

use crate::disk::Disk;
use crate::fault::DriverFault;
use crate::job::jobs_of;
use crate::keyboard::Keyboard;
use crate::live::live;
use crate::report::Report;
use anyhow::{Result, bail};
use std::env;
use usb_bus::Bus;
use usb_host::{Host, HostFault, News, PortPath, Round};
use usb_plan::read_plan;
use usb_sim::{SimBus, Untraced};

/// The world, as a plan: a keyboard at the first root port, and a disk at the second one. The disk halts once
/// where its status is awaited.
const WORLD: &str = r#"
limit = 10000
roots = 2

[[device]]
name = "keyboard"
speed = "low"
descriptor = "120110010000000834120200000100000001"
configs = ["09022200010100A0320904000001030101000921110100012217000705810308000A"]
request = [
  { type = 0x21, request = 0x0B },
  { type = 0x21, request = 0x0A },
  { type = 0x21, request = 0x09, value = 0x0200, length = 1 },
]
endpoint = [
  { address = 0x81, packets = ["00000B0000000000", "00000B0C00000000", "0000000000000000"] },
]

[[device]]
name = "disk"
speed = "full"
descriptor = "120100020000004034120300000100000001"
configs = ["0902200001010080320904000002080650000705810240000007050202400000"]
request = [{ type = 0x21, request = 0xFF, value = 0, index = 0 }]

[[device.endpoint]]
address = 0x81
halt_after = 3
packets = [
  "000007FF00000040", "55534253010000000000000000",
  "48656C6C6F2C20626C6F636B206F66203634206279746573202D2D2D2D2D2D2D2D2D2D2D2D2D2D2D2D2D2D2D2D2D2D2D2D2D2D2D2D2D2D2D2D2D2D2D2D2D2D2D",
  "55534253020000000000000000", "55534253030000000000000000",
]

[[event]]
do = "plug"
path = "1"
device = "keyboard"

[[event]]
do = "plug"
path = "2"
device = "disk"
"#;

/// The most news of the plan's devices.
const MOST_NEWS: u8 = 2;

const USAGE: &str =
    "words: live, and then jobs: keys COUNT, blocks FIRST COUNT, copy FROM TO COUNT, recover";

fn main(rt: HostRuntime) -> Result<()> {
    let args: Vec<String> = env::args(&rt)?.collect(rt.alloc())?;
    let mut words = Vec::new(rt.alloc());
    'words: for word in args.iter().skip(1) {
        words.push(word.as_str())?;
    }
    match words.as_slice() {
        [] => visit_plan(&rt),
        ["live", rest @ ..] => match jobs_of(rt.alloc(), rest)? {
            Some(jobs) => live(&rt, jobs.as_slice()),
            None => bail!(USAGE),
        },
        _ => bail!(USAGE),
    }
}

/// Meets the devices of the plan.
fn visit_plan<R: Print + AllocGlobal>(rt: &R) -> Result<()> {
    let mut bus = SimBus::untraced(rt.alloc(), &read_plan(rt.alloc(), WORLD)?)?;
    // both devices are plugged
    bus.apply_next_event()?;
    bus.apply_next_event()?;
    let mut host = Host::new(rt.alloc(), bus);
    settle(&mut host)?;
    'news: for _ in 0..MOST_NEWS {
        if let Some(News::Arrived(path)) = host.next_news() {
            meet(rt, &mut host, &path)?;
        }
    }
    Ok(())
}

/// Tries each driver on the device at a path.
fn meet<B: Bus>(rt: &impl Print, host: &mut Host<B>, path: &PortPath) -> Result<()> {
    match Keyboard::open(host, path) {
        Ok(keyboard) => return type_on(rt, host, path, &keyboard),
        Err(DriverFault::Alien) => {}
        Err(fault) => return Err(fault.into()),
    }
    let mut disk = Disk::open(host, path)?;
    read_from(rt, host, path, &mut disk)
}

/// Says which keys are pressed until no report is left.
fn type_on<B: Bus>(
    rt: &impl Print,
    host: &mut Host<B>,
    path: &PortPath,
    keyboard: &Keyboard,
) -> Result<()> {
    println!(rt; "port {}: a keyboard", path.text())?;
    keyboard.set_lights(host, 1)?;
    let mut last = Report::none();
    for _ in 0..100 {
        let Some(report) = keyboard.report(host)? else {
            break;
        };
        for key in report.pressed_since(&last).as_slice() {
            println!(rt; "  key {key}")?;
        }
        last = report;
    }
    Ok(())
}

/// Reads a block, writes it to the next one, and lets both begin again.
fn read_from<B: Bus>(
    rt: &impl Print,
    host: &mut Host<B>,
    path: &PortPath,
    disk: &mut Disk,
) -> Result<()> {
    let capacity = disk.capacity();
    println!(rt;
        "port {}: a disk, {} bytes a block, last block {}",
        path.text(),
        capacity.block,
        capacity.last
    )?;
    let block = disk.read(host, 1, 1)?;
    println!(rt; "  block 1: {} bytes", block.len())?;
    disk.write(host, 2, block.as_slice())?;
    disk.recover(host)?;
    println!(rt; "  written to block 2")?;
    Ok(())
}

/// Lets the host work until a round finds nothing more to do.
fn settle<B: Bus>(host: &mut Host<B>) -> Result<(), HostFault> {
    'rounds: for _ in 0..1000 {
        if host.round()? == Round::Quiet {
            break;
        }
    }
    Ok(())
}
