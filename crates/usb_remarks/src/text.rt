//! The text of a configuration, as a host reads it (sections 9.4.3, 9.6.3).
ghost use Rattle.std.specs.Prelude.{◌≡◌, ◌<◌, get_or, length, take, true, IfNone, IfSome};
ghost use Rattle.usb_descriptor.specs.Config.{configuration_value, front_fault};
ghost use Rattle.usb_enum.specs.Verdicts.{is_good_text, text_read};
ghost use Rattle.usb_remarks.specs.Refusing.{IsOwn};
ghost use Rattle.usb_remarks.specs.Remarks.{counts_behind, first_endpoint, is_too_small, item_remark, text_remark, whole_remark};

use usb_descriptor::{DescriptorFault, config_head};
use usb_request::descriptor_length::{CONFIGURATION_LENGTH, ENDPOINT_LENGTH, INTERFACE_LENGTH};
use usb_request::descriptor_type::{ENDPOINT, INTERFACE};

/// What is wrong with the text of a configuration.
#[derive(Clone, Copy, Debug, PartialEq, Eq)]
pub enum TextRemark {
    /// Its first nine bytes are no configuration descriptor.
    Head(DescriptorFault),
    /// It has fewer bytes than wTotalLength.
    Cut,
    /// The item that begins at this byte, counted from 0, is none.
    Item(usize, DescriptorFault),
}

/// Whether bLength is less than an item of its type has.
fn is_too_small(length: usize, kind: u8) -> bool
    ensures { result ≡ is_too_small length kind }
{
    length < 2
        || (kind == INTERFACE && length < INTERFACE_LENGTH)
        || (kind == ENDPOINT && length < ENDPOINT_LENGTH)
}

/// The fault of the item at the front, if it has one.
fn front_fault(bytes: &[u8]) -> Option<DescriptorFault>
    ensures { result ≡ front_fault bytes.now }
{
    if bytes.is_empty() {
        return None;
    }
    if bytes.len() == 1 {
        return Some(DescriptorFault::Total);
    }
    if is_too_small(usize::from(bytes[0]), bytes[1]) {
        return Some(DescriptorFault::Length);
    }
    if bytes.len() < usize::from(bytes[0]) {
        return Some(DescriptorFault::Total);
    }
    None
}

/// The first item with a fault.
#[tactic(auto, unfolding(crate::specs::Remarks::item_remark))]
fn item_remark(text: &[u8]) -> Option<TextRemark>
    ensures { result ≡ item_remark text.now }
{
    let mut at = CONFIGURATION_LENGTH;
    'items: while at < text.len() {
        let rest = &text[at..];
        if let Some(fault) = front_fault(rest) {
            return Some(TextRemark::Item(at, fault));
        }
        at += usize::from(rest[0]);
    }
    None
}

/// What is wrong with a text whose descriptor says that it has this number of bytes.
fn whole_remark(total: usize, text: &[u8]) -> Option<TextRemark>
    ensures { result ≡ whole_remark total text.now }
{
    if text.len() < total {
        return Some(TextRemark::Cut);
    }
    item_remark(&text[..total])
}

/// The first nine bytes, or all that there are.
fn head_of(text: &[u8]) -> &[u8]
    ensures { result.now ≡ take CONFIGURATION_LENGTH text.now }
{
    &text[..text.len().min(CONFIGURATION_LENGTH)]
}

/// The first fault of the text: of its head, of its length, then of its items.
#[tactic(auto, unfolding(crate::specs::Remarks::text_remark))]
fn first_remark(text: &[u8]) -> Option<TextRemark>
    ensures { result ≡ text_remark text.now }
{
    match config_head(head_of(text)) {
        Err(fault) => Some(TextRemark::Head(fault)),
        Ok(total) => whole_remark(usize::from(total), text),
    }
}

/// What is wrong with the text of a configuration. None if a host reads it.
#[tactic(auto, using(crate::proofs::Readers::own_if, crate::proofs::Readers::good_if))]
pub(crate) fn text_remark(text: &[u8]) -> Option<TextRemark>
    ensures value { result ≡ text_remark text.now }
    ensures own { IfSome result (IsOwn text.now) }
    ensures good { IfNone result (is_good_text text.now ≡ true) }
{
    first_remark(text)
}

/// What a host reads of it: as many bytes as its descriptor says.
#[tactic(auto, unfolding(usb_enum::specs::Verdicts::text_read))]
pub(crate) fn text_read(text: &[u8]) -> &[u8]
    ensures { result.now ≡ text_read text.now }
{
    match config_head(head_of(text)) {
        Err(_) => &text[..0],
        Ok(total) => &text[..text.len().min(usize::from(total))],
    }
}

/// Its bConfigurationValue, 0 without one.
pub(crate) fn value_of(text: &[u8]) -> u8
    ensures { result ≡ configuration_value (text_read text.now) }
{
    match text_read(text).get(5) {
        None => 0,
        Some(value) => *value,
    }
}

/// A byte of a text, 0 after its end.
pub(crate) fn byte_at(bytes: &[u8], at: usize) -> u8
    ensures { result ≡ get_or bytes.now at 0 }
{
    match bytes.get(at) {
        None => 0,
        Some(byte) => *byte,
    }
}

/// Whether endpoints count after the item: the last interface has alternate setting 0.
fn counts_behind(counts: bool, item: &[u8]) -> bool
    ensures { result ≡ counts_behind counts item.now }
{
    if byte_at(item, 1) == INTERFACE {
        byte_at(item, 3) == 0
    } else {
        counts
    }
}

/// Where the first endpoint descriptor begins that counts, in the text of a configuration.
#[tactic(auto, unfolding(crate::specs::Remarks::first_endpoint))]
pub(crate) fn first_endpoint(text: &[u8]) -> Option<usize>
    ensures value { result ≡ first_endpoint text.now }
    ensures bound { IfSome result (λ at. at < length text.now) }
{
    let mut at = CONFIGURATION_LENGTH;
    let mut counts = false;
    'items: while at < text.len() {
        let rest = &text[at..];
        if rest[0] < 2 {
            return None;
        }
        if counts && byte_at(rest, 1) == ENDPOINT {
            return Some(at);
        }
        counts = counts_behind(counts, rest);
        at += usize::from(rest[0]);
    }
    None
}
