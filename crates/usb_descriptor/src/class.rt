//! Classes, and the words for them.
ghost use Rattle.std.specs.Prelude.{◌≡◌, [], ◌∷◌, ◌++◌, codes, None, Some, MatchOption, OnOk};
ghost use Rattle.hex.specs.Hex.{encode_lower};
ghost use Rattle.usb_descriptor.specs.Item.{items_of};
ghost use Rattle.usb_descriptor.specs.Classes.{class_text, class_word, first_codes, hid_word};
ghost use Rattle.usb_descriptor.specs.Classes.{interface_codes, no_codes, text_codes};

use crate::{ConfigView, InterfaceView, Item, read_config};
use std::alloc::{AllocError, Global};

/// Class, subclass and protocol of a device or an interface (sections 9.6.1, 9.6.5).
#[derive(Clone, Copy, Debug, PartialEq, Eq)]
pub struct ClassCodes {
    /// bDeviceClass or bInterfaceClass.
    pub class: u8,
    /// bDeviceSubClass or bInterfaceSubClass.
    pub subclass: u8,
    /// bDeviceProtocol or bInterfaceProtocol.
    pub protocol: u8,
}

const NO_CODES: ClassCodes = ClassCodes {
    class: 0,
    subclass: 0,
    protocol: 0,
};

/// The codes of a configuration text's first interface; 0 each if the bytes are no such text, or have no interface.
#[tactic(auto, unfolding(crate::specs::Classes::text_codes))]
pub fn text_codes(text: &[u8]) -> ClassCodes
    ensures { result ≡ text_codes text.now }
{
    match read_config(text) {
        Ok(config) => first_codes(&config),
        Err(_) => NO_CODES,
    }
}

/// The codes of a configuration's first interface; 0 each if it has none.
pub fn first_codes(config: &ConfigView<'_>) -> ClassCodes
    ensures { result ≡ first_codes (items_of config.now) }
{
    for item in config.items() {
        if let Item::Interface(interface) = item {
            return interface_codes(&interface);
        }
    }
    NO_CODES
}

/// The codes of an interface.
pub fn interface_codes(interface: &InterfaceView<'_>) -> ClassCodes
    ensures { result ≡ interface_codes interface.now }
{
    ClassCodes {
        class: interface.class(),
        subclass: interface.subclass(),
        protocol: interface.protocol(),
    }
}

/// Adds the word for a class, as `mass storage`, or its number, as `class 7f`.
///
/// # Errors
///
/// Memory was refused. Part of the text may have been added.
pub fn push_class(alloc: Global, out: &mut Vec<u8>, codes: ClassCodes) -> Result<(), AllocError>
    ensures { OnOk result (out.new.items ≡ out.old.items ++ class_text codes) }
{
    match class_word(codes) {
        Some(word) => out.extend_from_slice(word.as_bytes()),
        None => push_number(alloc, out, codes.class),
    }
}

/// Adds the number of a class that has no word.
fn push_number(alloc: Global, out: &mut Vec<u8>, class: u8) -> Result<(), AllocError>
    ensures { OnOk result (out.new.items
        ≡ out.old.items ++ (codes "class " ++ encode_lower (class ∷ []))) }
{
    out.extend_from_slice(b"class ")?;
    let bytes: &[u8] = &[class];
    out.extend_from_slice(hex::encode(alloc, bytes)?.as_bytes())
}

/// The word of a class; None for a class that has no word, which is shown by its number.
#[tactic(auto, unfolding(crate::specs::Classes::class_word))]
fn class_word(codes: ClassCodes) -> Option<&'static str>
    ensures { MatchOption result (class_word codes ≡ None) (λ w. class_word codes ≡ Some w.now) }
{
    match codes.class {
        0x01 => Some("audio"),
        0x02 => Some("communications"),
        0x03 => Some(hid_word(codes)),
        0x05 => Some("physical"),
        0x06 => Some("image"),
        0x07 => Some("printer"),
        0x08 => Some("mass storage"),
        0x09 => Some("hub"),
        0x0a => Some("communications data"),
        0x0b => Some("smart card"),
        0x0d => Some("content security"),
        0x0e => Some("video"),
        0x0f => Some("health care"),
        0xdc => Some("diagnostic"),
        0xe0 => Some("wireless"),
        0xef => Some("miscellaneous"),
        0xfe => Some("application-specific"),
        0xff => Some("vendor-specific"),
        _ => None,
    }
}

/// What a human interface device is: a boot interface says it by its protocol.
fn hid_word(codes: ClassCodes) -> &'static str
    ensures { result.now ≡ hid_word codes }
{
    match (codes.subclass, codes.protocol) {
        (1, 1) => "HID keyboard",
        (1, 2) => "HID mouse",
        _ => "HID",
    }
}
