//! How many attempts are enough for a plan.

ghost use Rattle.std.specs.Prelude.{◌≡◌, ◌≤◌, ◌<◌, ◌-◌, ◌^◌, length, map, sum, take, min};
ghost use Rattle.std.specs.List.{sum_by};
ghost use Rattle.usb_device.specs.SaidLengths.{said_length, said_lengths};
ghost use Rattle.usb_plan.specs.Attempts.{plugged_total, greatest_total, moved, is_look, looks_in, bound_of};

use usb_descriptor::config_head;
use usb_scene::{DeviceSpec, Plan};
use usb_world::{Action, Ask, Change, Event};

/// The first 9 bytes, or all that there are.
fn head(text: &[u8]) -> &[u8]
    ensures { result.now ≡ take 9 text.now }
{
    if text.len() < 9 { text } else { &text[..9] }
}

/// wTotalLength of a text whose first 9 bytes are a configuration's head, else 0.
#[tactic(auto, unfolding(usb_device::specs::SaidLengths::said_length))]
fn said_length(text: &[u8]) -> u64
    ensures value { result ≡ said_length text.now }
    ensures most { result ≤ 65535 }
{
    config_head(head(text)).map_or(0, u64::from)
}

/// wTotalLength of all texts of a device.
#[tactic(auto, unfolding(usb_device::specs::SaidLengths::said_lengths))]
fn said_lengths(device: &DeviceSpec) -> u64
    ensures value { result ≡ said_lengths device.now }
    ensures most { result ≤ 524280 }
{
    let texts = device.configs();
    let mut sum = 0;
    'texts: for text in texts {
        sum += said_length(text.as_slice());
    }
    sum
}

/// wTotalLength of all texts of the device that the event plugs.
#[tactic(auto, unfolding(crate::specs::Attempts::plugged_total))]
fn plugged_total(devices: &[DeviceSpec], event: &Event) -> u64
    ensures value { result ≡ plugged_total devices.now event.now }
    ensures most { result ≤ 524280 }
{
    match &event.action {
        Action::Change(Change::Plug(_, device)) => match devices.get(*device) {
            Some(device) => said_lengths(device),
            None => 0,
        },
        _ => 0,
    }
}

/// The greatest of these, 0 with no event.
fn greatest_total(devices: &[DeviceSpec], events: &[Event]) -> u64
    ensures value { result ≡ greatest_total devices.now events.now }
    ensures most { result ≤ 524280 }
{
    let mut greatest: u64 = 0;
    'events: for event in events {
        greatest = greatest.max(plugged_total(devices, event));
    }
    greatest
}

/// The bytes that the event sends, the packets that it receives, or wLength of its request.
#[tactic(auto, unfolding(crate::specs::Attempts::moved))]
fn moved(event: &Event) -> u64
    ensures { result ≡ moved event.now }
{
    match &event.action {
        Action::Ask(Ask::Send(_, bytes)) => bytes.as_slice().len() as u64,
        Action::Ask(Ask::Receive(_, packets)) => u64::from(*packets),
        Action::Ask(Ask::SendTo(_, _, bytes)) => bytes.as_slice().len() as u64,
        Action::Ask(Ask::ReceiveFrom(_, _, packets)) => u64::from(*packets),
        Action::Ask(Ask::ControlIn(_, request)) => u64::from(request.setup().length),
        Action::Ask(Ask::ControlOut(_, request)) => u64::from(request.setup().length),
        _ => 0,
    }
}

/// The sum of these, at most the greatest number of the type.
fn all_moved(events: &[Event]) -> u64
    ensures { result ≡ min (sum_by moved events.now) (2 ^ 64 - 1) }
{
    let mut sum: u64 = 0;
    'events: for event in events {
        sum = sum.saturating_add(moved(event));
    }
    sum
}

/// Whether the event looks once more at a port.
fn is_look(event: &Event) -> bool
    ensures { result ≡ is_look event.now }
{
    matches!(&event.action, Action::Ask(Ask::Look(_)))
}

/// The number of events that look once more at a port.
fn looks_in(events: &[Event]) -> u64
    ensures value { result ≡ looks_in events.now }
    ensures most { result ≤ length events.now }
{
    events.iter().filter(|event| is_look(event)).count() as u64
}

/// How many attempts are enough for any run of the plan.
///
/// It is 200 * U * (30,000 + 10 * W) + 50,000 * U * V + 1,000 * M + 2, or the greatest `u64` if
/// that is more:
///
/// - V is the number of events, L the number of those that look once more at a port, and U is
///   V * (1 + L);
/// - W is the greatest number of bytes that the configurations of one plugged device have together
///   (wTotalLength, 9.6.3, of those texts that begin with a configuration descriptor);
/// - M is the sum of the bytes that events send, the packets that they receive, and wLength of
///   their requests (9.3.5).
///
/// It takes no memory.
#[tactic(auto, using(crate::proofs::Totals::saturated), unfolding(crate::specs::Attempts::bound_of))]
pub fn bound(plan: &Plan) -> u64
    ensures { result ≡ bound_of plan.now }
{
    let events = plan.events();
    let count = events.len() as u64;
    let units = count * (1 + looks_in(events));
    let greatest = greatest_total(plan.devices(), events);
    let found = 200 * units * (30_000 + 10 * greatest) + 50_000 * units * count + 2;
    found.saturating_add(all_moved(events).saturating_mul(1000))
}
