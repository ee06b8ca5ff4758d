//! The strings of a device (9.6.7).
ghost use Rattle.std.specs.Prelude.{◌≡◌, ◌≤◌, IfOk, IfErr};
ghost use Rattle.usb_transfer.specs.Transactions.{IsTarget};
ghost use Rattle.usb_enum.specs.Bounds.{read_bound, strings_bound};
ghost use Rattle.usb_enum.specs.Verdicts.{strings_by};
ghost use Rattle.usb_enum.specs.Parts.{Answered, Read, StopsRead};
ghost use Rattle.usb_enum.specs.Readings.{HasString, language_of, string_in, no_strings};
ghost use Rattle.usb_enum.specs.Refusals.{no_fault};
ghost use Rattle.usb_enum.specs.StringRequests.{AsksString, AsksLanguage, ReadsString, ReadsStrings};
ghost use Rattle.usb_enum.specs.Text.{first_language_of, string_units};
ghost use Rattle.usb_enum.specs.Stops.{IsPlainStop};

use crate::StringUnits;
use crate::stop::{Stop, stop_of};
use std::alloc::{AllocError, Global};
use usb_bus::Bus;
use usb_descriptor::read_string;
use usb_hub::get_string;
use usb_transfer::Target;

/// The strings that a device descriptor names, each in the device's first language. A string that
/// the descriptor names by 0, that the device does not give or that is malformed is `None`.
#[derive(Debug, Drop)]
pub struct Strings {
    /// What iManufacturer names.
    pub manufacturer: Option<StringUnits>,
    /// What iProduct names.
    pub product: Option<StringUnits>,
    /// What iSerialNumber names.
    pub serial_number: Option<StringUnits>,
}

impl Strings {
    /// Second strings of the same units.
    ///
    /// # Errors
    ///
    /// Memory was refused.
    pub fn try_clone(&self, alloc: Global) -> Result<Strings, AllocError>
        ensures { IfOk result (λ strings. strings ≡ self.now) }
    {
        Ok(Strings {
            manufacturer: cloned(alloc, &self.manufacturer)?,
            product: cloned(alloc, &self.product)?,
            serial_number: cloned(alloc, &self.serial_number)?,
        })
    }
}

/// A second string of the same units, or None again. Err if memory is refused.
fn cloned(alloc: Global, string: &Option<StringUnits>) -> Result<Option<StringUnits>, AllocError>
    ensures { IfOk result (λ copy. copy ≡ string.now) }
{
    match string {
        Some(units) => Ok(Some(units.try_clone(alloc)?)),
        None => Ok(None),
    }
}

/// The indexes of a device's strings, 0 for none.
#[derive(Clone, Copy, Debug, PartialEq, Eq)]
pub(crate) struct StringIndexes {
    pub manufacturer: u8,
    pub product: u8,
    pub serial_number: u8,
}

/// The first language of string 0, if that is a string descriptor with one.
fn first_language(bytes: &[u8]) -> Option<u16>
    ensures { result ≡ first_language_of bytes.now }
{
    match read_string(bytes) {
        Ok(languages) => languages.first_language(),
        Err(_) => None,
    }
}

/// The units of a string descriptor, or `None` if the bytes are none.
fn units_of(alloc: Global, bytes: &[u8]) -> Result<Option<StringUnits>, AllocError>
    ensures { IfOk result (λ units. units ≡ string_units bytes.now) }
{
    match read_string(bytes) {
        Ok(string) => {
            // for the checker: bLength is a byte, two more than twice the number of units
            let _length = string.length();
            Ok(Some(StringUnits::new(string.units().collect(alloc)?)))
        }
        Err(_) => Ok(None),
    }
}

/// The bytes of a string descriptor, or `None` if the device answered by STALL.
#[tactic(auto, using(usb_transfer::proofs::Interface::bound_wide))]
fn string_bytes<B: Bus>(
    alloc: Global,
    bus: &mut B,
    target: Target,
    index: u8,
    language: u16,
) -> Result<Option<Vec<u8>>, Stop>
    requires target { IsTarget target }
    requires max { 8 ≤ target.max }
    ensures plain { IfErr result IsPlainStop }
    ensures read { Read B.modelled B.world B.trace B.spent B.ports B.failed (read_bound 255)
        (Answered target (AsksString target index language) (HasString index))
        (StopsRead target no_fault) bus.old result bus.new }
{
    match get_string(alloc, bus, target, index, language) {
        Ok(bytes) => Ok(Some(bytes)),
        Err(fault) => match stop_of(fault) {
            Some(stop) => Err(stop),
            None => Ok(None),
        },
    }
}

/// The string of an index; index 0 names none.
fn read_one<B: Bus>(
    alloc: Global,
    bus: &mut B,
    target: Target,
    index: u8,
    language: u16,
) -> Result<Option<StringUnits>, Stop>
    requires target { IsTarget target }
    requires max { 8 ≤ target.max }
    ensures plain { IfErr result IsPlainStop }
    ensures read { Read B.modelled B.world B.trace B.spent B.ports B.failed (read_bound 255)
        (Answered target (ReadsString target index language)
        (λ string spec. string ≡ string_in spec index))
        (StopsRead target no_fault) bus.old result bus.new }
{
    if index == 0 {
        return Ok(None);
    }
    match string_bytes(alloc, bus, target, index, language)? {
        Some(bytes) => Ok(units_of(alloc, bytes.as_slice())?),
        None => Ok(None),
    }
}

/// The device's first language, if it gives one.
fn language<B: Bus>(alloc: Global, bus: &mut B, target: Target) -> Result<Option<u16>, Stop>
    requires target { IsTarget target }
    requires max { 8 ≤ target.max }
    ensures plain { IfErr result IsPlainStop }
    ensures read { Read B.modelled B.world B.trace B.spent B.ports B.failed (read_bound 255)
        (Answered target (AsksLanguage target) (λ language spec. language ≡ language_of spec))
        (StopsRead target no_fault) bus.old result bus.new }
{
    match string_bytes(alloc, bus, target, 0, 0)? {
        Some(bytes) => Ok(first_language(bytes.as_slice())),
        None => Ok(None),
    }
}

/// The device's strings, each in its first language.
pub(crate) fn read_strings<B: Bus>(
    alloc: Global,
    bus: &mut B,
    target: Target,
    indexes: StringIndexes,
) -> Result<Strings, Stop>
    requires target { IsTarget target }
    requires max { 8 ≤ target.max }
    ensures plain { IfErr result IsPlainStop }
    ensures read { Read B.modelled B.world B.trace B.spent B.ports B.failed strings_bound
        (Answered target (ReadsStrings target indexes)
        (λ strings spec. strings ≡ strings_by spec indexes))
        (StopsRead target no_fault) bus.old result bus.new }
{
    if indexes.manufacturer == 0 && indexes.product == 0 && indexes.serial_number == 0 {
        return Ok(no_strings());
    }
    let Some(language) = language(alloc, bus, target)? else {
        return Ok(no_strings());
    };
    let manufacturer = read_one(alloc, bus, target, indexes.manufacturer, language)?;
    let product = read_one(alloc, bus, target, indexes.product, language)?;
    let serial_number = read_one(alloc, bus, target, indexes.serial_number, language)?;
    Ok(Strings {
        manufacturer,
        product,
        serial_number,
    })
}

/// The strings of a device that names none, or that gives no language.
fn no_strings() -> Strings
    ensures { result ≡ no_strings }
{
    Strings {
        manufacturer: None,
        product: None,
        serial_number: None,
    }
}
