//! What a host takes.
ghost use Rattle.std.specs.Prelude.{◌≡◌};
ghost use Rattle.usb_enum.specs.Verdicts.{is_over, left_of, usual_options};

/// What a host takes. By default no wide hubs, and as many bytes as a device says.
#[derive(Clone, Copy, Debug, Default, PartialEq, Eq)]
pub struct HostOptions {
    /// Whether it takes wide hubs: of 8 to 15 ports, and with a status endpoint of any
    /// number (11.12.1, 11.23.1).
    pub wide_hubs: bool,
    /// How many bytes the configurations of one device may have together, by wTotalLength of
    /// each (9.6.3). A device that says more is refused. `None`: no limit.
    pub device_bytes: Option<usize>,
}

impl HostOptions {
    /// Those of a host that takes wide hubs or does not, and has no limit of bytes.
    pub fn usual(wide_hubs: bool) -> HostOptions
        ensures { result ≡ usual_options wide_hubs }
    {
        HostOptions {
            wide_hubs,
            device_bytes: None,
        }
    }
}

/// Whether a length is more than what is left; never if there is no limit.
pub(crate) fn is_over(room: Option<usize>, bytes: u16) -> bool
    ensures { result ≡ is_over room bytes }
{
    match room {
        Some(most) => most < bytes as usize,
        None => false,
    }
}

/// What is left after this number of bytes.
pub(crate) fn left_of(room: Option<usize>, bytes: usize) -> Option<usize>
    ensures { result ≡ left_of room bytes }
{
    match room {
        Some(most) => Some(most.saturating_sub(bytes)),
        None => None,
    }
}
