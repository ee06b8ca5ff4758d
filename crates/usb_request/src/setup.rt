//! The eight bytes of setup data and their fields.
ghost use Rattle.std.specs.Prelude.{◌≡◌};
ghost use Rattle.usb_request.specs.Layout.{bytes_of, setup_of};

/// The setup data of a control transfer (9.3).
#[derive(Clone, Copy, Debug, PartialEq, Eq)]
pub struct Setup {
    /// bmRequestType: bit 7 is set if the data go to the host. Bits 6 and 5 are the type (0
    /// standard, 1 class, 2 vendor), bits 4 to 0 the recipient (0 device, 1 interface, 2 endpoint,
    /// 3 other).
    pub request_type: u8,
    /// bRequest: one of the request codes.
    pub request: u8,
    /// wValue: its meaning is the request's.
    pub value: u16,
    /// wIndex: its meaning is the request's.
    pub index: u16,
    /// wLength: the most bytes of the data stage; 0 if there is none.
    pub length: u16,
}

impl Setup {
    /// The eight bytes as they go over the bus, each field of two bytes low byte first (8.1).
    #[tactic(auto, unfolding(crate::specs::Layout::bytes_of, crate::specs::Layout::setup_of))]
    pub fn to_bytes(self) -> [u8; 8]
        ensures bytes { result ≡ bytes_of self }
        ensures fields { setup_of result ≡ self }
    {
        let [value_low, value_high] = self.value.to_le_bytes();
        let [index_low, index_high] = self.index.to_le_bytes();
        let [length_low, length_high] = self.length.to_le_bytes();
        [
            self.request_type,
            self.request,
            value_low,
            value_high,
            index_low,
            index_high,
            length_low,
            length_high,
        ]
    }

    /// The fields that eight bytes carry.
    #[tactic(auto, unfolding(crate::specs::Layout::bytes_of, crate::specs::Layout::setup_of))]
    pub fn from_bytes(bytes: [u8; 8]) -> Setup
        ensures fields { result ≡ setup_of bytes }
        ensures bytes { bytes_of result ≡ bytes }
    {
        let [
            request_type,
            request,
            value_low,
            value_high,
            index_low,
            index_high,
            length_low,
            length_high,
        ] = bytes;
        Setup {
            request_type,
            request,
            value: u16::from_le_bytes([value_low, value_high]),
            index: u16::from_le_bytes([index_low, index_high]),
            length: u16::from_le_bytes([length_low, length_high]),
        }
    }
}
