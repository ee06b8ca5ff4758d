use std::alloc::{AllocError, AllocFailed};
use thiserror::Error;
use usb_descriptor::DescriptorFault;
use usb_watch::WriteFailed;

/// Why bytes give no entry of a plan, in the order in which the reasons are told. Offsets are in bytes, from 0.
#[derive(Clone, Copy, Debug, PartialEq, Eq, Error)]
pub enum EntryFault {
    /// The entry's name is empty.
    #[error("device: no name")]
    NoName,
    /// There are no bytes.
    #[error("device: no bytes")]
    Empty,
    /// The first 18 bytes, or fewer where no more came, are no device descriptor.
    #[error("device: byte 0: {0}")]
    Device(DescriptorFault),
    /// bNumConfigurations is over 8, the most that a plan takes.
    #[error("device: byte 17: too many configurations")]
    TooMany,
    /// The configuration that begins there is none, or is cut off.
    #[error("device: byte {0}: {1}")]
    Configuration(usize, DescriptorFault),
    /// The bytes end there, before the last of the configurations.
    #[error("device: byte {0}: configuration missing")]
    Missing(usize),
    /// Bytes are left there, behind the last of the configurations.
    #[error("device: byte {0}: bytes left over")]
    LeftOver(usize),
    /// The writer failed.
    #[error("write failed")]
    Write,
    /// Memory was refused.
    #[error("out of memory")]
    Memory,
}

impl From<AllocError> for EntryFault {
    ghost use Rattle.std.specs.Prelude.{◌≡◌};
    ghost use Rattle.usb_entry.specs.declared.fault.EntryFault.TheVariants.{Memory};

    ghost from_gives = { λ _ e. e ≡ Memory };

    fn from(_e: AllocError) -> EntryFault {
        EntryFault::Memory
    }
}

impl<T: Drop> From<AllocFailed<T>> for EntryFault {
    ghost use Rattle.std.specs.Prelude.{◌≡◌};
    ghost use Rattle.usb_entry.specs.declared.fault.EntryFault.TheVariants.{Memory};

    ghost from_gives = { λ _ e. e ≡ Memory };

    fn from(_e: AllocFailed<T>) -> EntryFault {
        EntryFault::Memory
    }
}

impl From<WriteFailed> for EntryFault {
    ghost use Rattle.std.specs.Prelude.{◌≡◌};
    ghost use Rattle.usb_entry.specs.declared.fault.EntryFault.TheVariants.{Write as write_failed};

    ghost from_gives = { λ _ e. e ≡ write_failed };

    fn from(_e: WriteFailed) -> EntryFault {
        EntryFault::Write
    }
}
