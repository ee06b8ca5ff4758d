//! The check field of tokens and of start-of-frame packets (8.3.5.1).
ghost use Rattle.std.specs.Prelude.{◌≡◌, ◌<◌};
ghost use Rattle.usb_check.specs.Bits.{low_bits};
ghost use Rattle.usb_check.specs.Polynomial.{IsCheck, generator5};
ghost use Rattle.usb_check.specs.Register.{step};

/// The five check bits of the eleven bits that a token carries after its PID (8.3.5.1).
///
/// `field` is below 2048. Field and answer are held as they are sent, the lowest bit first.
pub fn check5(field: u16) -> u8
    requires { field < 2048 }
    ensures size { result < 32 }
    ensures remainder { IsCheck generator5 (low_bits 11 field) (low_bits 5 result) }
{
    let mut register = 0x1f;
    let mut rest = field;
    for _ in 0..11u8 {
        register = shift5(register, rest & 1 == 1);
        rest >>= 1;
    }
    register ^ 0x1f
}

/// One bit goes in. The register's highest coefficient is in its lowest bit.
fn shift5(register: u8, bit: bool) -> u8
    requires { register < 32 }
    ensures size { result < 32 }
    ensures value { low_bits 5 result ≡ step generator5 (low_bits 5 register) bit }
{
    let shifted = register >> 1;
    if (register & 1 == 1) != bit {
        shifted ^ 0x14
    } else {
        shifted
    }
}
