//! What a plan says of a device.
ghost use Rattle.std.specs.Prelude.{◌≡◌, ◌≤◌, Some, true, length, option_copied, IfOk};
ghost use Rattle.usb_device.specs.DeviceSpecs.{function, hub_fits, IsSpec};

use crate::hub_spec::HubSpec;
use crate::name::Name;
use std::alloc::{AllocError, Global};
use std::marker::Model;
use usb_device::{Bytes, ConfigTexts, EndpointSpecs, OwnRequests, Stalls, StringTexts};

/// The same ports and descriptor of a hub, if it is one, in memory of their own.
fn copied_hub(alloc: Global, hub: &Option<HubSpec>) -> Result<Option<HubSpec>, AllocError>
    ensures { IfOk result (λ h. h ≡ hub.now) }
{
    match hub {
        Some(hub) => Ok(Some(hub.try_clone(alloc)?)),
        None => Ok(None),
    }
}

/// A device as a plan describes it.
#[derive(Debug, Drop)]
pub struct DeviceSpec {
    name: Name,
    low: bool,
    descriptor: Bytes<255>,
    configs: ConfigTexts,
    strings: StringTexts,
    self_powered: bool,
    busy: bool,
    silent: bool,
    naks: u8,
    stalls: Stalls,
    hub: Option<HubSpec>,
    source: Bytes<65535>,
    halt_after: Option<u16>,
    endpoints: EndpointSpecs,
    requests: OwnRequests,
}

impl Model for DeviceSpec {
    ghost use Rattle.std.specs.Prelude.{◌≡◌, ◌≤◌, true};
    ghost use Rattle.std.specs.Option.{IfSome};
    ghost use Rattle.usb_device.specs.DeviceSpecs.{Spec, hub_fits};

    ghost Value = { Spec };

    ghost view = { λ s. record {
      name = s.name;
      low = s.low;
      descriptor = s.descriptor;
      configs = s.configs;
      strings = s.strings;
      self_powered = s.self_powered;
      busy = s.busy;
      silent = s.silent;
      naks = s.naks;
      stalls = s.stalls;
      hub = s.hub;
      source = s.source;
      halt_after = s.halt_after;
      endpoints = s.endpoints;
      requests = s.requests;
    } };

    ghost invariant = { λ s. (s.naks ≤ 200)
        × (hub_fits s.low s.descriptor s.hub ≡ true)
        × IfSome s.halt_after (λ k. 1 ≤ k) };
}

impl DeviceSpec {
    /// A full-speed function without strings that does nothing special. It refuses no request, gives
    /// no NAK, and has no requests of its own. Its endpoints have nothing to give and never halt, and
    /// it has its power from the bus. Its device descriptor (9.6.1) and the texts of its
    /// configurations (9.6.3) are any bytes.
    pub fn function(name: Name, descriptor: Bytes<255>, configs: ConfigTexts) -> Self
        ensures { result ≡ function name descriptor configs }
    {
        let strings = StringTexts::none_beside(&configs);
        let source = configs.no_bytes_beside();
        let requests = configs.no_requests_beside();
        let endpoints = configs.no_endpoints_beside();
        DeviceSpec {
            name,
            low: false,
            descriptor,
            configs,
            strings,
            self_powered: false,
            busy: false,
            silent: false,
            naks: 0,
            stalls: Stalls::none(),
            hub: None,
            source,
            halt_after: None,
            endpoints,
            requests,
        }
    }

    /// The same device at low speed, or at full speed, as a hub is.
    pub fn with_low_speed(mut self, low: bool) -> Self
        requires { hub_fits low self.descriptor self.hub ≡ true }
        ensures { result ≡ record self { low = low } }
    {
        self.low = low;
        self
    }

    /// The same device with these string descriptors.
    pub fn with_strings(mut self, strings: StringTexts) -> Self
        ensures { result ≡ record self { strings = strings } }
    {
        self.strings = strings;
        self
    }

    /// The same device, which has its own power or not.
    pub fn with_self_powered(mut self, self_powered: bool) -> Self
        ensures { result ≡ record self { self_powered = self_powered } }
    {
        self.self_powered = self_powered;
        self
    }

    /// The same device, which answers each data and status stage by NAK, or does not.
    pub fn with_busy(mut self, busy: bool) -> Self
        ensures { result ≡ record self { busy = busy } }
    {
        self.busy = busy;
        self
    }

    /// The same device, which never answers, or does.
    pub fn with_silent(mut self, silent: bool) -> Self
        ensures { result ≡ record self { silent = silent } }
    {
        self.silent = silent;
        self
    }

    /// The same device, which begins each control transfer with this number of NAKs, at most 200.
    pub fn with_naks(mut self, naks: u8) -> Self
        requires { naks ≤ 200 }
        ensures { result ≡ record self { naks = naks } }
    {
        self.naks = naks;
        self
    }

    /// The same device, which refuses these requests.
    pub fn with_stalls(mut self, stalls: Stalls) -> Self
        ensures { result ≡ record self { stalls = stalls } }
    {
        self.stalls = stalls;
        self
    }

    /// The same device as a hub with ports, whose speed is full and whose class is that of hubs.
    pub fn with_hub(mut self, hub: HubSpec) -> Self
        requires { hub_fits self.low self.descriptor (Some hub) ≡ true }
        ensures { result ≡ record self { hub = Some hub } }
    {
        self.hub = Some(hub);
        self
    }

    /// The same device, whose first bulk IN endpoint gives these bytes, if no row of its endpoints
    /// names it.
    pub fn with_source(mut self, source: Bytes<65535>) -> Self
        ensures { result ≡ record self { source = source } }
    {
        self.source = source;
        self
    }

    /// The same device, whose first bulk OUT endpoint halts once, when it has taken this number of
    /// packets since the plug, if no row of its endpoints names it.
    pub fn with_halt_after(mut self, packets: u16) -> Self
        requires { 1 ≤ packets }
        ensures { result ≡ record self { halt_after = Some packets } }
    {
        self.halt_after = Some(packets);
        self
    }

    /// The same device, of whose endpoints the plan says this.
    pub fn with_endpoints(mut self, endpoints: EndpointSpecs) -> Self
        ensures { result ≡ record self { endpoints = endpoints } }
    {
        self.endpoints = endpoints;
        self
    }

    /// The same device with these requests of its own.
    pub fn with_requests(mut self, requests: OwnRequests) -> Self
        ensures { result ≡ record self { requests = requests } }
    {
        self.requests = requests;
        self
    }

    /// The same description in memory of its own.
    ///
    /// # Errors
    ///
    /// Memory was refused.
    pub fn try_clone(&self, alloc: Global) -> Result<Self, AllocError>
        ensures { IfOk result (λ s. s ≡ self.now) }
    {
        Ok(DeviceSpec {
            name: self.name.try_clone(alloc)?,
            low: self.low,
            descriptor: self.descriptor.try_clone(alloc)?,
            configs: self.configs.try_clone(alloc)?,
            strings: self.strings.try_clone(alloc)?,
            self_powered: self.self_powered,
            busy: self.busy,
            silent: self.silent,
            naks: self.naks,
            stalls: self.stalls,
            hub: copied_hub(alloc, &self.hub)?,
            source: self.source.try_clone(alloc)?,
            halt_after: self.halt_after,
            endpoints: self.endpoints.try_clone(alloc)?,
            requests: self.requests.try_clone(alloc)?,
        })
    }

    /// What the plan calls it.
    pub fn name(&self) -> &str
        ensures { result.now ≡ self.now.name }
    {
        self.name.as_str()
    }

    /// Whether it is a low-speed device; else it is a full-speed one.
    pub fn is_low(&self) -> bool
        ensures { result ≡ self.now.low }
    {
        self.low
    }

    /// Its device descriptor (9.6.1), which can be any bytes.
    pub fn descriptor(&self) -> &[u8]
        ensures value { result.now ≡ self.now.descriptor }
        ensures bound { length self.now.descriptor ≤ 255 }
    {
        self.descriptor.as_slice()
    }

    /// The texts of its configurations (9.6.3), by their index, which can be any bytes.
    pub fn configs(&self) -> &[Bytes<65535>]
        ensures value { result.now ≡ self.now.configs }
        ensures bound { length self.now.configs ≤ 8 }
    {
        self.configs.as_slice()
    }

    /// Its string descriptors (9.6.7), by their index, which can be any bytes.
    pub fn strings(&self) -> &[Bytes<255>]
        ensures value { result.now ≡ self.now.strings }
        ensures bound { length self.now.strings ≤ 256 }
    {
        self.strings.as_slice()
    }

    /// Whether it has its own power, as GET_STATUS reports (9.4.5).
    pub fn is_self_powered(&self) -> bool
        ensures { result ≡ self.now.self_powered }
    {
        self.self_powered
    }

    /// Whether it answers each data and status stage by NAK.
    pub fn is_busy(&self) -> bool
        ensures { result ≡ self.now.busy }
    {
        self.busy
    }

    /// Whether it never answers.
    pub fn is_silent(&self) -> bool
        ensures { result ≡ self.now.silent }
    {
        self.silent
    }

    /// How many NAKs it gives in each control transfer before it goes on, at most 200.
    pub fn naks(&self) -> u8
        ensures value { result ≡ self.now.naks }
        ensures bound { result ≤ 200 }
    {
        self.naks
    }

    /// The requests that it refuses.
    pub fn stalls(&self) -> Stalls
        ensures { result ≡ self.now.stalls }
    {
        self.stalls
    }

    /// Its ports and its hub descriptor, if it is a hub.
    pub fn hub(&self) -> Option<&HubSpec>
        ensures value { option_copied result ≡ self.now.hub }
        ensures fits { hub_fits self.now.low self.now.descriptor self.now.hub ≡ true }
    {
        self.hub.as_ref()
    }

    /// The bytes that its first bulk IN endpoint gives, if no row of its endpoints names it.
    pub fn source(&self) -> &[u8]
        ensures value { result.now ≡ self.now.source }
        ensures bound { length self.now.source ≤ 65535 }
    {
        self.source.as_slice()
    }

    /// After how many packets since the plug its first bulk OUT endpoint halts once, if it ever does
    /// and no row of its endpoints names it.
    pub fn halt_after(&self) -> Option<u16>
        ensures value { result ≡ self.now.halt_after }
        ensures least { IfSome result (λ k. 1 ≤ k) }
    {
        self.halt_after
    }

    /// What the plan says of its endpoints.
    pub fn endpoints(&self) -> &EndpointSpecs
        ensures value { result.now ≡ self.now.endpoints }
        ensures bound { length self.now.endpoints ≤ 30 }
    {
        self.endpoints.as_slice();
        &self.endpoints
    }

    /// The requests of its own.
    pub fn requests(&self) -> &OwnRequests
        ensures value { result.now ≡ self.now.requests }
        ensures bound { length self.now.requests ≤ 64 }
    {
        self.requests.as_slice();
        &self.requests
    }

    /// Does nothing; what it ensures is for `Devices` to cite: the rules of a device.
    pub(crate) fn keeps_rules(&self)
        ensures { IsSpec self.now }
    {
        self.configs.as_slice();
        self.strings.as_slice();
        self.requests.as_slice();
        self.endpoints.as_slice();
        if let Some(hub) = &self.hub {
            hub.ports();
            hub.descriptor();
        }
    }

    ghost use Rattle.std.specs.Option.{IfSome};
    ghost use Rattle.usb_device.specs.Transfer.{max_packet};

    /// The most data bytes of a packet on endpoint 0, by byte 7 of its descriptor,
    /// bMaxPacketSize0 (5.5.3, 9.6.1).
    pub fn max_packet(&self) -> u8
        ensures value { result ≡ max_packet self.now }
        ensures low { 8 ≤ result }
        ensures high { result ≤ 64 }
    {
        match self.descriptor().get(7) {
            Some(16) if !self.low => 16,
            Some(32) if !self.low => 32,
            Some(64) if !self.low => 64,
            _ => 8,
        }
    }
}
