//! Names of devices, made fit for one line.
ghost use Rattle.std.specs.Prelude.{◌≡◌, ◌++◌, ◌<◌, ◌^◌, flat_map, IsTrue, IfOk, OnOk};
ghost use Rattle.std.specs.Str.{chars};
ghost use Rattle.usb_bus.specs.Lines.{shown_names};
ghost use Rattle.usb_watch.specs.Shown.{is_escaped, escaped, shown_char, shown_name};

use std::alloc::{AllocError, Global};
use std::marker::Model;
use usb_packet::hex_digits;
use usb_scene::DeviceSpec;
use usb_watch::ends_line;

/// A device's name as it is in a line of the trace.
#[derive(Debug, Drop)]
pub(crate) struct ShownName {
    bytes: Vec<u8>,
}

impl Model for ShownName {
    ghost use Rattle.std.specs.Prelude.{List, ℕ};

    ghost Value = { List ℕ };

    ghost view = { λ n. n.bytes.items };
}

impl ShownName {
    /// The name, with each character that may end a line and each backslash as `\uXXXX`.
    fn new(alloc: Global, name: &str) -> Result<Self, AllocError>
        ensures { IfOk result (λ shown. shown ≡ shown_name name.now) }
    {
        let letters = letters_of(alloc, name)?;
        let mut bytes = Vec::new(alloc);
        push_letters(&mut bytes, letters.as_slice())?;
        Ok(ShownName { bytes })
    }

    /// The bytes of the name.
    pub(crate) fn as_bytes(&self) -> &[u8]
        ensures { result.now ≡ self.now }
    {
        self.bytes.as_slice()
    }
}

/// The names of the devices, in their order.
pub(crate) fn shown_names(
    alloc: Global,
    devices: &[DeviceSpec],
) -> Result<Vec<ShownName>, AllocError>
    ensures { IfOk result (λ names. names.items ≡ shown_names devices.now) }
{
    let mut names = Vec::new(alloc);
    'devices: for device in devices {
        names.push(ShownName::new(alloc, device.name())?)?;
    }
    Ok(names)
}

/// The characters of a text.
fn letters_of(alloc: Global, text: &str) -> Result<Vec<char>, AllocError>
    ensures { IfOk result (λ letters. letters.items ≡ chars text.now) }
{
    text.chars().collect(alloc)
}

/// Adds characters, each as the trace shows it.
fn push_letters(out: &mut Vec<u8>, letters: &[char]) -> Result<(), AllocError>
    ensures { OnOk result (out.new.items ≡ out.old.items ++ flat_map shown_char letters.now) }
{
    'letters: for letter in letters {
        push_letter(out, *letter)?;
    }
    Ok(())
}

/// Adds one character as the trace shows it.
fn push_letter(out: &mut Vec<u8>, letter: char) -> Result<(), AllocError>
    ensures { OnOk result (out.new.items ≡ out.old.items ++ shown_char letter) }
{
    if is_marked(letter) {
        return push_escaped(out, letter as u16);
    }
    let mut buffer = [0; 4];
    out.extend_from_slice(letter.encode_utf8(&mut buffer).as_bytes())
}

/// A character that is shown as its number: one that may end a line, or the backslash.
fn is_marked(letter: char) -> bool
    ensures value { result ≡ is_escaped letter }
    ensures range { IsTrue result → letter < 2 ^ 16 }
{
    ends_line(letter) || letter == '\\'
}

/// Adds a number as `\u` and four digits.
fn push_escaped(out: &mut Vec<u8>, number: u16) -> Result<(), AllocError>
    ensures { OnOk result (out.new.items ≡ out.old.items ++ escaped number) }
{
    out.extend_from_slice(b"\\u")?;
    out.extend_from_slice(&hex_digits((number / 256) as u8))?;
    out.extend_from_slice(&hex_digits((number % 256) as u8))
}
