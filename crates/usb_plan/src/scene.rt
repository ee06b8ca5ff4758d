//! What an event meets.

ghost use Rattle.std.specs.Prelude.{◌≡◌, [], IfOk, OnOk, map, nat_le, option_map, position};
ghost use Rattle.std.specs.Str.{bytes_eq};
ghost use Rattle.toml.specs.View.{view};
ghost use Rattle.usb_plan.specs.Scene.{is_port, ports_at, ports_said};
ghost use Rattle.usb_world.specs.PluggedDevices.{is_rooted, device_indexed, spec_port_count, plugged_after};
ghost use Rattle.usb_world.specs.Plans.{is_taken};

use crate::keys::MOST_WIDE_PORTS;
use crate::plugged::Plugged;
use crate::value::{number_or, value_at};
use std::alloc::{AllocError, Global};
use std::marker::Model;
use toml::Value;
use usb_port::PortPath;
use usb_scene::DeviceSpec;
use usb_world::Action;

/// The root ports, whether hubs may be wide, the devices of the plan, how many ports its table says of each, and which
/// devices are plugged where.
#[derive(Drop)]
pub(crate) struct Scene<'a> {
    roots: u8,
    wide: bool,
    devices: &'a [DeviceSpec],
    ports: Vec<u64>,
    plugged: Plugged,
}

impl<'a> Model for Scene<'a> {
    ghost use Rattle.usb_plan.specs.Scene.{SceneData};

    ghost Value = { SceneData };

    ghost view = { λ s. record {
      roots = s.roots;
      wide = s.wide;
      devices = s.devices.now;
      ports = s.ports.items;
      plugged = s.plugged;
    } };
}

impl<'a> Scene<'a> {
    /// Nothing is plugged.
    pub(crate) fn new(
        alloc: Global,
        roots: u8,
        wide: bool,
        devices: &'a [DeviceSpec],
        ports: Vec<u64>,
    ) -> Self
        ensures { result ≡ record {
          roots = roots;
          wide = wide;
          devices = devices.now;
          ports = ports.items;
          plugged = [];
        } }
    {
        Scene {
            roots,
            wide,
            devices,
            ports,
            plugged: Plugged::new(alloc),
        }
    }

    /// Whether hubs may have more than 7 ports.
    pub(crate) fn wide_hubs(&self) -> bool
        ensures { result ≡ self.now.wide }
    {
        self.wide
    }

    /// The index of the device of a name.
    pub(crate) fn device_named(&self, name: &str) -> Option<usize>
        ensures { result ≡ position (λ s. bytes_eq s.name name.now) self.now.devices }
    {
        self.devices.iter().position(|device| device.name() == name)
    }

    /// Whether the first number of the path is a root port's.
    pub(crate) fn is_rooted(&self, path: &PortPath) -> bool
        ensures { result ≡ is_rooted self.now.roots path.now }
    {
        path.numbers()[0] <= self.roots
    }

    /// Whether the device of an index has the port.
    fn device_has(&self, index: Option<usize>, port: u8) -> bool
        ensures { result ≡ nat_le port (spec_port_count (device_indexed self.now.devices index)) }
    {
        port <= port_count(device_indexed(self.devices, index))
    }

    /// Whether the table of the device of an index says that there is the port.
    fn table_says(&self, index: Option<usize>, port: u8) -> bool
        ensures { result ≡ nat_le port (ports_at self.now.ports index) }
    {
        u64::from(port) <= ports_at(self.ports.as_slice(), index)
    }

    /// Whether the path is a root port, or a port that a plugged device has and its table says. Where hubs are not
    /// wide, one whose descriptor spells more than 7 ports has more than its table says.
    #[tactic(auto, unfolding(crate::specs::Scene::says_port, usb_world::specs::PluggedDevices::parent_has))]
    pub(crate) fn has_port(&self, path: &PortPath) -> bool
        ensures { result ≡ is_port self.now path.now }
    {
        if !self.is_rooted(path) {
            return false;
        }
        match path.parent() {
            None => true,
            Some(parent) => {
                let index = self.plugged.device_at(&parent);
                let is_root = path.numbers().len() == 1;
                (is_root || self.device_has(index, path.port()))
                    && self.table_says(index, path.port())
            }
        }
    }

    /// Whether something is plugged at the path.
    pub(crate) fn is_taken(&self, path: &PortPath) -> bool
        ensures { result ≡ is_taken self.now.plugged path.now }
    {
        self.plugged.device_at(path).is_some()
    }

    /// Has the action change what is plugged.
    ///
    /// # Errors
    ///
    /// Memory was refused.
    pub(crate) fn apply(&mut self, action: &Action) -> Result<(), AllocError>
        ensures { OnOk result
            (self.new ≡ record self.old { plugged = plugged_after action.now self.old.plugged }) }
    {
        self.plugged.apply(action)
    }
}

/// The device at this index; None without an index, or without a device there.
fn device_indexed(devices: &[DeviceSpec], index: Option<usize>) -> Option<&DeviceSpec>
    ensures { option_map (λ d. d.now) result ≡ device_indexed devices.now index }
{
    devices.get(index?)
}

/// How many ports the key `ports` of a device's table says, 0 without it.
#[tactic(auto, unfolding(crate::specs::Scene::ports_said))]
fn ports_said(table: &Value) -> u64
    ensures { result ≡ ports_said (view table.now) }
{
    match table.as_table() {
        None => 0,
        Some(table) => match number_or(0, 1, u64::from(MOST_WIDE_PORTS), value_at(table, "ports")) {
            Ok(ports) => ports,
            Err(_) => 0,
        },
    }
}

/// How many ports its table says of each device.
pub(crate) fn all_said(alloc: Global, tables: &[Value]) -> Result<Vec<u64>, AllocError>
    ensures { IfOk result (λ ports. ports.items ≡ map ports_said (map view tables.now)) }
{
    let mut ports = Vec::with_capacity(alloc, tables.len())?;
    'tables: for table in tables {
        ports.push(ports_said(table))?;
    }
    Ok(ports)
}

/// How many ports are said of the device of an index.
#[tactic(auto, unfolding(crate::specs::Scene::ports_at))]
fn ports_at(ports: &[u64], index: Option<usize>) -> u64
    ensures { result ≡ ports_at ports.now index }
{
    match index {
        None => 0,
        Some(index) => match ports.get(index) {
            None => 0,
            Some(count) => *count,
        },
    }
}

/// How many ports the device has.
#[tactic(auto, unfolding(usb_world::specs::PluggedDevices::spec_port_count))]
fn port_count(device: Option<&DeviceSpec>) -> u8
    ensures { result ≡ spec_port_count (option_map (λ d. d.now) device.entry) }
{
    match device {
        None => 0,
        Some(device) => match device.hub() {
            None => 0,
            Some(hub) => hub.ports(),
        },
    }
}
