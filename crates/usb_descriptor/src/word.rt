ghost use Rattle.std.specs.Prelude.{◌≡◌, ◌<◌, ◌+◌, length};
ghost use Rattle.usb_request.specs.Layout.{word_at};

/// The two bytes at a place as one number, the low byte first.
pub(crate) fn word_at(bytes: &[u8], place: usize) -> u16
    requires { place + 1 < length bytes.now }
    ensures { result ≡ word_at bytes.now place }
{
    u16::from_le_bytes([bytes[place], bytes[place + 1]])
}
