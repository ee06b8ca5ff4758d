//! String descriptors (section 9.6.7).
ghost use Rattle.std.specs.Prelude.{◌≡◌, ◌+◌, ◌*◌, length, slice_get};
ghost use Rattle.usb_descriptor.specs.Text.{string_of};

use crate::fault::DescriptorFault;
use std::marker::Model;
use usb_request::descriptor_type::STRING;

/// A string descriptor, as a view of its bytes (section 9.6.7).
#[derive(Debug, Drop)]
pub struct StringView<'a> {
    bytes: &'a [u8],
}

impl<'a> Model for StringView<'a> {
    ghost use Rattle.std.specs.Prelude.{List, ℕ, ◌≡◌, ◌≤◌, ◌%◌, drop, length, slice_index};
    ghost use Rattle.usb_request.specs.declared.descriptor_type.TheConstants.{STRING};
    ghost use Rattle.usb_descriptor.specs.Words.{words_of};

    ghost Value = { List ℕ };

    ghost view = { λ v. words_of (drop 2 v.bytes.now) };

    ghost invariant = { λ v. (2 ≤ length v.bytes.now)
        × (slice_index v.bytes.now 0 ≡ length v.bytes.now)
        × (slice_index v.bytes.now 1 ≡ STRING) × (length v.bytes.now % 2 ≡ 0) };
}

/// The string descriptor that the bytes begin with (section 9.6.7). What comes after its bLength
/// bytes is ignored.
///
/// # Errors
///
/// The first fault:
///
/// - `Short`: there are fewer than 2 bytes.
/// - `WrongType`: bDescriptorType is not STRING.
/// - `Length`: bLength is odd, under 2, or over the bytes that came.
#[tactic(auto, unfolding(crate::specs::Text::string_of))]
pub fn read_string(bytes: &[u8]) -> Result<StringView<'_>, DescriptorFault>
    ensures { result ≡ string_of bytes.now }
{
    if bytes.len() < 2 {
        return Err(DescriptorFault::Short);
    }
    if bytes[1] != STRING {
        return Err(DescriptorFault::WrongType);
    }
    let length = usize::from(bytes[0]);
    if length % 2 == 1 || length < 2 || length > bytes.len() {
        return Err(DescriptorFault::Length);
    }
    Ok(StringView {
        bytes: &bytes[..length],
    })
}

impl<'a> StringView<'a> {
    /// bLength, two bytes and two for each unit.
    #[tactic(auto, using(crate::proofs::Pairs::words_of_drop))]
    pub fn length(&self) -> u8
        ensures { result ≡ 2 + 2 * length self.now }
    {
        self.bytes[0]
    }

    /// bDescriptorType, which is STRING.
    pub fn descriptor_type(&self) -> u8
        ensures { result ≡ STRING }
    {
        self.bytes[1]
    }

    /// The units of the string, in order; for string 0 its language codes.
    pub fn units(&self) -> Units<'a>
        ensures { result ≡ self.now }
    {
        Units {
            rest: &self.bytes[2..],
        }
    }

    /// The first unit, if there is one; for string 0 its first language code.
    pub fn first_language(&self) -> Option<u16>
        ensures { result ≡ slice_get self.now 0 }
    {
        self.units().next()
    }
}

/// The units of a string that are left, each of 16 bits.
#[derive(Debug, Drop)]
pub struct Units<'a> {
    rest: &'a [u8],
}

impl<'a> Model for Units<'a> {
    ghost use Rattle.std.specs.Prelude.{List, ℕ};
    ghost use Rattle.usb_descriptor.specs.Words.{words_of};

    ghost Value = { List ℕ };

    ghost view = { λ u. words_of u.rest.now };
}

impl<'a> Iterator for Units<'a> {
    type Item = u16;

    ghost use Rattle.std.specs.Iterator.{YieldsFirst, item_count};

    ghost next_gives = { YieldsFirst (λ u. u) };

    ghost remaining = { item_count (λ u. u) };

    fn next(&mut self) -> Option<u16> {
        let (unit, rest) = self.rest.split_first_chunk::<2>()?;
        self.rest = rest;
        Some(u16::from_le_bytes(*unit))
    }
}
