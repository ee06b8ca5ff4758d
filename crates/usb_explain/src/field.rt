//! Fields of setup data, and the parts of them that have a meaning of their own.
ghost use Rattle.std.specs.Prelude.{◌≡◌};
ghost use Rattle.usb_explain.specs.Words.{field_value};

use usb_request::Setup;

/// A field of setup data, or a part of one.
#[derive(Clone, Copy)]
pub(crate) enum SetupField {
    /// bmRequestType.
    RequestType,
    /// Bits 6 and 5 of bmRequestType: 0 standard, 1 class, 2 vendor, 3 reserved (table 9-2).
    Kind,
    /// bRequest.
    RequestCode,
    /// wValue.
    Value,
    /// The high byte of wValue.
    ValueHigh,
    /// The low byte of wValue.
    ValueLow,
    /// wIndex.
    Index,
    /// The high byte of wIndex.
    IndexHigh,
    /// The low byte of wIndex.
    IndexLow,
    /// wLength.
    Length,
}

/// The value of a field.
#[tactic(auto, unfolding(crate::specs::Words::field_value))]
pub(crate) fn field_value(field: SetupField, setup: &Setup) -> u16
    ensures { result ≡ field_value field setup.now }
{
    match field {
        SetupField::RequestType => u16::from(setup.request_type),
        SetupField::Kind => u16::from(setup.request_type / 32 % 4),
        SetupField::RequestCode => u16::from(setup.request),
        SetupField::Value => setup.value,
        SetupField::ValueHigh => setup.value / 256,
        SetupField::ValueLow => setup.value % 256,
        SetupField::Index => setup.index,
        SetupField::IndexHigh => setup.index / 256,
        SetupField::IndexLow => setup.index % 256,
        SetupField::Length => setup.length,
    }
}
