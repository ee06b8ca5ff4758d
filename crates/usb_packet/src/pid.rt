//! The packet identifiers (8.3.1): the type in the low four bits, its complement in the high four.
ghost use Rattle.std.specs.Prelude.{◌≡◌};
ghost use Rattle.usb_packet.specs.Spelling.{token_pid, data_pid};

use crate::{Toggle, TokenKind};

pub(crate) const OUT: u8 = 0xe1;

pub(crate) const IN: u8 = 0x69;

pub(crate) const SOF: u8 = 0xa5;

pub(crate) const SETUP: u8 = 0x2d;

pub(crate) const DATA0: u8 = 0xc3;

pub(crate) const DATA1: u8 = 0x4b;

pub(crate) const ACK: u8 = 0xd2;

pub(crate) const NAK: u8 = 0x5a;

pub(crate) const STALL: u8 = 0x1e;

pub(crate) const PRE: u8 = 0x3c;

pub(crate) fn of_token(kind: TokenKind) -> u8
    ensures { result ≡ token_pid kind }
{
    match kind {
        TokenKind::OutTok => OUT,
        TokenKind::InTok => IN,
        TokenKind::SetupTok => SETUP,
    }
}

pub(crate) fn of_data(toggle: Toggle) -> u8
    ensures { result ≡ data_pid toggle }
{
    match toggle {
        Toggle::Zero => DATA0,
        Toggle::One => DATA1,
    }
}
