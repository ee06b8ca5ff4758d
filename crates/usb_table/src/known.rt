//! A port of which the table knows how it is asked.
ghost use Rattle.std.specs.Prelude.{◌≡◌, ◌<◌, IfSome};
ghost use Rattle.usb_port.specs.Path.{IsPortNumber};
ghost use Rattle.usb_table.specs.Findings.{IsSoundFinding};
ghost use Rattle.usb_table.specs.KnownPorts.{root_port, is_below_hub, port_of_finding, IsAskable};

use crate::target::target_to;
use usb_enum::Finding;
use usb_hub::HubPort;
use usb_port::{PortPath, supply};

/// A port, and what it gives to a device, in mA (7.2.1).
#[derive(Clone, Copy, Debug, PartialEq, Eq)]
pub struct KnownPort {
    /// The port, of the root or of a hub.
    pub port: HubPort,
    /// In mA.
    pub supply: u16,
}

/// Whether the port is one of a hub other than the root.
pub(crate) fn is_below_hub(path: &PortPath) -> bool
    ensures { result ≡ is_below_hub path.now }
{
    path.numbers().len() > 1
}

/// A port of the root, by its number.
pub(crate) fn root_port(number: u8) -> KnownPort
    ensures { result ≡ root_port number }
{
    KnownPort {
        port: HubPort::Root(number),
        supply: supply(true, false),
    }
}

/// A port of a hub, by its number from 1; `None` if it is no accepted hub with this number of
/// ports.
pub(crate) fn port_of_finding(finding: &Finding, below_hub: bool, number: u8) -> Option<KnownPort>
    requires sound { IsSoundFinding finding.now }
    requires number { IsPortNumber number }
    ensures value { result ≡ port_of_finding finding.now below_hub number }
    ensures served { IfSome result (λ known. IsAskable known.port) }
{
    match finding {
        Finding::Device(device) => match device.hub {
            Some(facts) if number <= facts.ports => Some(KnownPort {
                port: HubPort::External {
                    hub: target_to(device, below_hub),
                    port: number,
                },
                supply: facts.supply,
            }),
            _ => None,
        },
        Finding::Refused(_) => None,
    }
}
