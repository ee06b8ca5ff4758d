//! The items of a configuration text, one after the other (section 9.5).
ghost use Rattle.std.specs.Prelude.{◌≡◌, ◌≤◌, ◌<◌, Some, IfOk, IfErr, length, take};
ghost use Rattle.usb_descriptor.specs.Config.{IsItem, HasItemFault, front_fault, AreItems};

use crate::fault::DescriptorFault;
use crate::item::{Item, item_of};
use std::marker::Model;
use usb_request::descriptor_length::{ENDPOINT_LENGTH, INTERFACE_LENGTH};
use usb_request::descriptor_type::{ENDPOINT, INTERFACE};

/// The length of the next item, if any bytes are left.
fn front(bytes: &[u8]) -> Result<usize, DescriptorFault>
    requires { 0 < length bytes.now }
    ensures ok { IfOk result (λ n. (2 ≤ n) × (n ≤ length bytes.now) × IsItem (take n bytes.now)) }
    ensures err { IfErr result (λ e. front_fault bytes.now ≡ Some e) }
{
    if bytes.len() == 1 {
        return Err(DescriptorFault::Total);
    }
    let length = usize::from(bytes[0]);
    let kind = bytes[1];
    if length < 2
        || (kind == INTERFACE && length < INTERFACE_LENGTH)
        || (kind == ENDPOINT && length < ENDPOINT_LENGTH)
    {
        return Err(DescriptorFault::Length);
    }
    if bytes.len() < length {
        return Err(DescriptorFault::Total);
    }
    Ok(length)
}

/// Tests that the bytes are items, one after the other.
pub(crate) fn check_items(bytes: &[u8]) -> Result<(), DescriptorFault>
    ensures ok { IfOk result (λ _. AreItems bytes.now) }
    ensures err { IfErr result (HasItemFault bytes.now) }
{
    let mut at = 0;
    while at < bytes.len() {
        at += front(&bytes[at..])?;
    }
    Ok(())
}

/// The items of a configuration text that are left, in order, each with its own bytes.
#[derive(Debug, Drop)]
pub struct Items<'a> {
    rest: &'a [u8],
}

impl<'a> Model for Items<'a> {
    ghost use Rattle.std.specs.Prelude.{List};
    ghost use Rattle.usb_descriptor.specs.declared.item.Item.{Item as AnItem};
    ghost use Rattle.usb_descriptor.specs.Config.{AreItems};
    ghost use Rattle.usb_descriptor.specs.Item.{items_in};

    ghost Value = { List AnItem };

    ghost view = { λ s. items_in s.rest.now };

    ghost invariant = { λ s. AreItems s.rest.now };
}

impl<'a> Items<'a> {
    ghost use Rattle.usb_descriptor.specs.Item.{items_in};

    pub(crate) fn new(bytes: &'a [u8]) -> Items<'a>
        requires { AreItems bytes.now }
        ensures { result ≡ items_in bytes.now }
    {
        Items { rest: bytes }
    }
}

impl<'a> Iterator for Items<'a> {
    type Item = Item<'a>;

    ghost use Rattle.std.specs.Iterator.{YieldsFirst, item_count};

    ghost next_gives = { YieldsFirst (λ s. s) };

    ghost remaining = { item_count (λ s. s) };

    fn next(&mut self) -> Option<Item<'a>> {
        if self.rest.is_empty() {
            return None;
        }
        let length = usize::from(self.rest[0]);
        let (item, rest) = self.rest.split_at(length);
        self.rest = rest;
        Some(item_of(item))
    }
}
