//! Received data.
ghost use Rattle.std.specs.Prelude.{◌≡◌, IfSome, IfNone};
ghost use Rattle.usb_judge.specs.Sources.{HasNoPlace, IsAfter, Narrows, after_clear, after_loss};
ghost use Rattle.usb_judge.specs.Sources.{at_plug, goes_on, with_place};

/// The most bytes of a packet.
const PACKET: usize = 64;

/// The places in a device's source at which the next data that a host receives may begin. A place
/// counts bytes from 0, `least` to `most`.
///
/// A device gives its source by its first bulk IN endpoint, each byte once and in order, from the
/// plug on. A reset does not begin it again. If another configuration has another first bulk IN
/// endpoint, that one begins it anew: a window is that of one endpoint.
#[derive(Clone, Copy, Debug, PartialEq, Eq)]
pub struct Window {
    /// The first place.
    pub least: usize,
    /// The last place.
    pub most: usize,
}

impl Window {
    /// At the plug: the source begins.
    pub fn at_plug() -> Window
        ensures { result ≡ at_plug }
    {
        Window { least: 0, most: 0 }
    }

    /// After a host reported these data; None if they are at no place of the window, so that they
    /// are other data than the device gave.
    ///
    /// If they are at several places, the next data may begin after each of them.
    pub fn after_data(self, source: &[u8], bytes: &[u8]) -> Option<Window>
        ensures some { IfSome result (IsAfter source.now bytes.now self) }
        ensures none { IfNone result (HasNoPlace source.now bytes.now self) }
    {
        let narrow = self.narrow(source, bytes)?;
        Some(Window {
            least: narrow.least + bytes.len(),
            most: narrow.most + bytes.len(),
        })
    }

    /// After a receive failed: the device may have given any part of the rest of its source, and the
    /// host reports none of it.
    pub fn after_loss(self, source: &[u8]) -> Window
        ensures { result ≡ after_loss source.now self }
    {
        Window {
            least: self.least,
            most: source.len(),
        }
    }

    /// After the endpoint's toggle began anew: its halt was cleared, its interface was set, or the
    /// device was configured (9.4.5). If the ACK of the last packet was lost, that packet comes again.
    pub fn after_clear(self) -> Window
        ensures { result ≡ after_clear self }
    {
        Window {
            least: self.least.saturating_sub(PACKET),
            most: self.most,
        }
    }

    /// From the first place of the window from which the source goes on with these bytes to the
    /// last one; None if there is none.
    fn narrow(self, source: &[u8], bytes: &[u8]) -> Option<Window>
        ensures some { IfSome result (Narrows source.now bytes.now self) }
        ensures none { IfNone result (HasNoPlace source.now bytes.now self) }
    {
        let mut narrow = None;
        let end = self.most.min(source.len()) + 1;
        'places: for place in self.least..end {
            if goes_on(source, bytes, place) {
                narrow = Some(with_place(narrow, place));
            }
        }
        narrow
    }
}

/// The window with a place more at its end.
fn with_place(narrow: Option<Window>, place: usize) -> Window
    ensures { result ≡ with_place narrow place }
{
    match narrow {
        None => Window {
            least: place,
            most: place,
        },
        Some(narrow) => Window {
            least: narrow.least,
            most: place,
        },
    }
}

/// Whether the source goes on from a place with these bytes.
fn goes_on(source: &[u8], bytes: &[u8], place: usize) -> bool
    ensures { result ≡ goes_on source.now bytes.now place }
{
    place <= source.len() && source[place..].starts_with(bytes)
}
