//! The report of a boot keyboard (HID, appendix B.1).
ghost use Rattle.std.specs.Prelude.{◌≡◌, ◌∷◌, []};
ghost use Rattle.usb_class_drivers.specs.Reports.{is_known, is_pressed, pressed, report_of};

use arrayvec::ArrayVec;

/// Which keys are down.
#[derive(Clone, Copy, Debug, PartialEq, Eq)]
pub struct Report {
    /// Control, shift, alt and command, the left ones from bit 0 on and the right ones from bit 4 on.
    pub modifiers: u8,
    /// The usage codes of up to six other keys; 0 where there is none.
    pub keys: [u8; 6],
}

/// In the places of all keys while more are down than a report can say (HID, appendix C).
const ROLLOVER: u8 = 1;

/// A code of 0 to 3 is no key: none is down there, or the keyboard can't tell which.
const FIRST_KEY: u8 = 4;

impl Report {
    /// No key is down.
    pub fn none() -> Report
        ensures { result ≡ record { modifiers = 0; keys = 0 ∷ 0 ∷ 0 ∷ 0 ∷ 0 ∷ 0 ∷ [] } }
    {
        Report {
            modifiers: 0,
            keys: [0; 6],
        }
    }

    /// The report that a packet begins with; `None` if it has fewer than 8 bytes.
    pub(crate) fn read(packet: &[u8]) -> Option<Report>
        ensures { result ≡ report_of packet.now }
    {
        match packet {
            [modifiers, _, a, b, c, d, e, f, ..] => Some(Report {
                modifiers: *modifiers,
                keys: [*a, *b, *c, *d, *e, *f],
            }),
            _ => None,
        }
    }

    /// Whether it says which keys are down.
    pub(crate) fn is_known(&self) -> bool
        ensures { result ≡ is_known self.now }
    {
        !self.keys.contains(&ROLLOVER)
    }

    /// The keys that are down here and were not down in an earlier report, in their order.
    pub fn pressed_since(&self, earlier: &Report) -> ArrayVec<u8, 6>
        ensures { result.items ≡ pressed earlier.now self.now }
    {
        let mut pressed = ArrayVec::new();
        'keys: for key in self.keys {
            if is_pressed(earlier, key) {
                pressed.push(key);
            }
        }
        pressed
    }
}

/// Whether this is a key that was not down before.
fn is_pressed(earlier: &Report, key: u8) -> bool
    ensures { result ≡ is_pressed earlier.now key }
{
    key >= FIRST_KEY && !earlier.keys.contains(&key)
}
