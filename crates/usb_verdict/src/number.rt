//! Numbers in decimal.
ghost use Rattle.std.specs.Prelude.{◌≡◌};
ghost use Rattle.usb_verdict.specs.Lines.{is_digit, number_from, number_in, with_digit};

/// The number that a word spells in decimal, with no zero before it, if it is at most 255.
pub(crate) fn number_in(word: &[u8]) -> Option<u8>
    ensures { result ≡ number_in word.now }
{
    match word {
        [] => None,
        [b'0', _, ..] => None,
        _ => number_from(0, word),
    }
}

/// The number that goes on from one, digit by digit.
#[tactic(auto, unfolding(crate::specs::Lines::number_from))]
fn number_from(read: u8, word: &[u8]) -> Option<u8>
    ensures { result ≡ number_from read word.now }
{
    let Some((digit, rest)) = word.split_first() else {
        return Some(read);
    };
    let more = with_digit(read, *digit);
    if is_digit(*digit) && more <= 255 {
        number_from(more as u8, rest)
    } else {
        None
    }
}

fn is_digit(byte: u8) -> bool
    ensures { result ≡ is_digit byte }
{
    (b'0'..=b'9').contains(&byte)
}

/// The number with a digit more.
fn with_digit(number: u8, digit: u8) -> u16
    ensures { result ≡ with_digit number digit }
{
    10 * u16::from(number) + u16::from(digit.saturating_sub(b'0'))
}
