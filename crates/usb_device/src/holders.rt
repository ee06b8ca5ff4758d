//! Who holds an address, among the devices that packets reach.
ghost use Rattle.std.specs.Prelude.{◌≡◌, ◌<◌, None, Some, false};

use arrayvec::ArrayVec;

/// Who holds an address.
#[derive(Debug, Drop)]
pub enum Holder {
    /// No device that packets reach.
    Nobody,
    /// One device, by its path.
    One(ArrayVec<u8, 8>),
    /// Several; or one whose path is longer than eight numbers.
    Several,
}

impl Holder {
    ghost use Rattle.usb_device.specs.Holders.{is_known, joined_holder};

    /// One device more that holds the address, by its path; whether one was known before.
    pub fn join(&mut self, path: &Option<ArrayVec<u8, 8>>) -> bool
        ensures known { result ≡ is_known self.old }
        ensures joined { self.new ≡ joined_holder self.old path.now }
    {
        if let Holder::Nobody = self {
            *self = Holder::of(path);
            false
        } else {
            *self = Holder::Several;
            true
        }
    }

    /// The one device at a path.
    pub fn of(path: &Option<ArrayVec<u8, 8>>) -> Holder
        ensures { result ≡ joined_holder Holder.Nobody path.now }
    {
        match path {
            None => Holder::Several,
            Some(path) => Holder::One(path_copy(path)),
        }
    }
}

/// The same path.
pub fn path_copy(path: &ArrayVec<u8, 8>) -> ArrayVec<u8, 8>
    ensures { result ≡ path.now }
{
    let mut copy = ArrayVec::new();
    copy.try_extend_from_slice(path.as_slice()).unwrap();
    copy
}
