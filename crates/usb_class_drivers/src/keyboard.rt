//! A driver of a boot keyboard (HID, 7.2 and appendix B).
ghost use Rattle.std.specs.Prelude.{◌≡◌, ◌<◌, [], ◌∷◌, false, true, length, None, Ok, Err};
ghost use Rattle.usb_host.specs.Numbers.{device_in};
ghost use Rattle.usb_host.specs.Progress.{known_in};
ghost use Rattle.usb_class_drivers.specs.Keyboards.{AsksOnce, AsksReport, Begins, KeyboardOpens};
ghost use Rattle.usb_class_drivers.specs.Keyboards.{keyboard_at, poll_told, set_report};
ghost use Rattle.usb_class_drivers.specs.Places.{is_there};
ghost use Rattle.usb_class_drivers.specs.Requests.{class_request};
ghost use Rattle.usb_class_drivers.specs.Calls.{Writes};
ghost use Rattle.usb_class_drivers.specs.declared.fault.DriverFault.TheVariants.{Gone};

use crate::fault::{DriverFault, driver_told, is_stalled};
use crate::found::Kind;
use crate::interface::interface_of;
use crate::place::Place;
use crate::report::Report;
use crate::request::class_request;
use arrayvec::ArrayVec;
use usb_bus::Bus;
use usb_descriptor::EndpointKind;
use usb_host::{Host, HostFault, PortPath, TransferFault};
use usb_request::EndpointAddress;

/// A boot keyboard's interface.
const KEYBOARD: Kind = Kind {
    class: 3,
    subclass: 1,
    protocol: 1,
    transfer: EndpointKind::Interrupt,
};

const SET_REPORT: u8 = 0x09;

const SET_IDLE: u8 = 0x0a;

const SET_PROTOCOL: u8 = 0x0b;

/// SET_REPORT names an output report by this in the high byte of wValue.
const OUTPUT_REPORT: u16 = 0x0200;

/// A boot keyboard.
#[derive(Debug, Drop)]
pub struct Keyboard {
    place: Place,
    interface: u8,
    reports: EndpointAddress,
}

impl Keyboard {
    /// Takes the keyboard at a path: it is set to the boot protocol, and reports only changes.
    ///
    /// # Errors
    ///
    /// - `Gone`: no accepted device is at the path.
    /// - `Alien`: it is no boot keyboard.
    /// - `Host`: a request failed. A keyboard that refuses SET_IDLE is taken all the same.
    pub fn open<B: Bus>(host: &mut Host<B>, path: &PortPath) -> Result<Keyboard, DriverFault>
        ensures gone { device_in path.now (known_in host.old) ≡ None
            → (result ≡ Err Gone) × (host.new ≡ host.old) }
        ensures opens { KeyboardOpens B.modelled
            (keyboard_at path.now (device_in path.now (known_in host.old)))
            host.old result host.new }
    {
        let keyboard = Keyboard::of(host, path)?;
        keyboard.begin(host)?;
        Ok(keyboard)
    }

    /// Asks once which keys are down; `None` if nothing changed since it was asked last, or if more are
    /// down than a report can say. A report that was lost on the way comes with the next call.
    ///
    /// # Errors
    ///
    /// - `Gone`: another device is there, or none. Nothing is attempted.
    /// - `Short`: the report has fewer than 8 bytes.
    /// - `Host`: the call failed. With `Stalled`, the halt was not cleared.
    pub fn report<B: Bus>(&self, host: &mut Host<B>) -> Result<Option<Report>, DriverFault>
        ensures gone { is_there self.now.place host.old ≡ false
            → (result ≡ Err Gone) × (host.new ≡ host.old) }
        ensures asks { is_there self.now.place host.old ≡ true
            → AsksReport B.modelled self.now host.old result host.new }
    {
        self.place.check(host)?;
        self.ask(host)
    }

    /// Sets the lights: num lock is bit 0, caps lock bit 1, scroll lock bit 2.
    ///
    /// # Errors
    ///
    /// - `Gone`: another device is there, or none. Nothing is attempted.
    /// - `Host`: the request failed.
    pub fn set_lights<B: Bus>(&self, host: &mut Host<B>, lights: u8) -> Result<(), DriverFault>
        ensures gone { is_there self.now.place host.old ≡ false
            → (result ≡ Err Gone) × (host.new ≡ host.old) }
        ensures asks { is_there self.now.place host.old ≡ true
            → AsksOnce B.modelled self.now (set_report self.now.interface) (lights ∷ [])
            host.old result host.new }
    {
        self.place.check(host)?;
        driver_told(self.request(host, SET_REPORT, OUTPUT_REPORT, &[lights]))
    }

    /// The keyboard at a path.
    fn of<B: Bus>(host: &Host<B>, path: &PortPath) -> Result<Keyboard, DriverFault>
        ensures { result ≡ keyboard_at path.now (device_in path.now (known_in host.now)) }
    {
        let Some(place) = Place::of(host, path) else {
            return Err(DriverFault::Gone);
        };
        let Some(found) = interface_of(host, path, KEYBOARD) else {
            return Err(DriverFault::Alien);
        };
        let into = found.into;
        let Some(end) = into else {
            return Err(DriverFault::Alien);
        };
        Ok(Keyboard {
            place,
            interface: found.number,
            reports: end.address,
        })
    }

    /// Sets it to the boot protocol, and to reports of changes alone if it can do that.
    fn begin<B: Bus>(&self, host: &mut Host<B>) -> Result<(), DriverFault>
        ensures { Begins B.modelled self.now host.old result host.new }
    {
        self.request(host, SET_PROTOCOL, 0, &[])?;
        let idled = self.request(host, SET_IDLE, 0, &[]);
        if is_stalled(&idled) {
            Ok(())
        } else {
            driver_told(idled)
        }
    }

    /// Polls once, and clears the halt if the endpoint answered STALL.
    fn ask<B: Bus>(&self, host: &mut Host<B>) -> Result<Option<Report>, DriverFault>
        ensures { AsksReport B.modelled self.now host.old result host.new }
    {
        let polled = self.place.poll(host, self.reports);
        if is_stalled(&polled) {
            self.place.clear(host, self.reports)?;
            Ok(None)
        } else {
            poll_told(polled)
        }
    }

    /// Makes a request to the keyboard's interface, with these bytes.
    fn request<B: Bus>(
        &self,
        host: &mut Host<B>,
        request: u8,
        value: u16,
        bytes: &[u8],
    ) -> Result<(), HostFault>
        requires { length bytes.now < 65536 }
        ensures { Writes B.modelled self.now.place.path
            (class_request self.now.interface request value (length bytes.now)) bytes.now
            host.old result host.new }
    {
        let setup = class_request(self.interface, request, value, bytes.len() as u16);
        self.place.write(host, setup, bytes)
    }
}

/// What a poll gave.
fn poll_told(
    polled: Result<Option<ArrayVec<u8, 64>>, HostFault>,
) -> Result<Option<Report>, DriverFault>
    ensures { result ≡ poll_told polled }
{
    match polled {
        Ok(Some(packet)) => match Report::read(packet.as_slice()) {
            Some(report) if report.is_known() => Ok(Some(report)),
            // too many keys are down
            Some(_) => Ok(None),
            None => Err(DriverFault::Short),
        },
        Ok(None) | Err(HostFault::Transfer(TransferFault::NoAnswer)) => Ok(None),
        Err(fault) => Err(DriverFault::Host(fault)),
    }
}
