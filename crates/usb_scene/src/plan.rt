//! A plan: which devices there are, what happens to them, and which packets are damaged.

use crate::damage::Damages;
use crate::devices::Devices;
use crate::event::Events;
use crate::spec::DeviceSpec;
use std::marker::Model;
use usb_world::{Damage, Event};

/// A plan for a bus.
///
/// At most 100,000,000,000,000 attempts are made; there are 1 to 7 root ports. The host takes hubs of more
/// than 7 ports, or it does not. The devices are as the rules say, at most 127, no two of one name. Each event
/// comes at most 1,000,000,000 attempts after the former one. A plug names one of the plan's devices and a free
/// port: a root port, or a port of a device that is plugged then. Something is plugged where an event unplugs. Each
/// damage is to a later attempt than the former one.
#[derive(Debug, Drop)]
pub struct Plan {
    limit: u64,
    roots: u8,
    wide: bool,
    devices: Devices,
    events: Events,
    damages: Damages,
}

impl Model for Plan {
    ghost use Rattle.usb_world.specs.Plans.{PlanData, IsPlan, plan_data};

    ghost Value = { PlanData };

    ghost view = { λ p. plan_data p.limit p.roots p.wide p.devices p.events p.damages };

    ghost invariant = { λ p. IsPlan (plan_data p.limit p.roots p.wide p.devices p.events p.damages) };
}

impl Plan {
    ghost use Rattle.std.specs.Prelude.{◌≡◌, ◌≤◌, length};
    ghost use Rattle.usb_world.specs.Plans.{PlanData, IsPlan, plan_data};
    ghost use Rattle.usb_world.specs.PlanCourses.{AtPorts};
    ghost use Rattle.usb_world.specs.PlanLimits.{event_most, damage_most};

    /// The plan of these parts. `wide` says whether the host takes hubs of 8 to 15 ports, and status endpoints of any
    /// number (11.12.4, 11.23.1).
    pub fn new(
        limit: u64,
        roots: u8,
        wide: bool,
        devices: Devices,
        events: Events,
        damages: Damages,
    ) -> Self
        requires { IsPlan (plan_data limit roots wide devices events damages) }
        ensures { result ≡ plan_data limit roots wide devices events damages }
    {
        Plan {
            limit,
            roots,
            wide,
            devices,
            events,
            damages,
        }
    }

    /// How many attempts are made at most.
    pub fn limit(&self) -> u64
        ensures value { result ≡ self.now.limit }
        ensures plan { IsPlan self.now }
    {
        self.limit
    }

    /// The number of root ports, 1 to 7.
    pub fn roots(&self) -> u8
        ensures value { result ≡ self.now.roots }
        ensures plan { IsPlan self.now }
    {
        self.roots
    }

    /// Whether the host takes hubs of 8 to 15 ports, and status endpoints of any number (11.12.4, 11.23.1).
    pub fn wide_hubs(&self) -> bool
        ensures value { result ≡ self.now.wide }
        ensures plan { IsPlan self.now }
    {
        self.wide
    }

    /// The devices that events plug.
    pub fn devices(&self) -> &[DeviceSpec]
        ensures value { result.now ≡ self.now.devices }
        ensures plan { IsPlan self.now }
    {
        self.devices.as_slice()
    }

    /// The events in their order, at most 10,000.
    pub fn events(&self) -> &[Event]
        ensures value { result.now ≡ self.now.events }
        ensures bound { length self.now.events ≤ event_most }
        ensures plan { IsPlan self.now }
        ensures paths { AtPorts self.now.events }
    {
        self.events.as_slice()
    }

    /// The damages in their order, at most 10,000.
    pub fn damages(&self) -> &[Damage]
        ensures value { result.now ≡ self.now.damages }
        ensures bound { length self.now.damages ≤ damage_most }
        ensures plan { IsPlan self.now }
    {
        self.damages.as_slice()
    }
}
