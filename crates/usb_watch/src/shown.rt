//! Characters that may end a line.
ghost use Rattle.std.specs.Prelude.{◌≡◌, ◌<◌, ◌^◌, IsTrue};
ghost use Rattle.usb_watch.specs.Shown.{ends_line};

/// Whether a character may end a line: a control character, or the separator of lines or of paragraphs.
pub fn ends_line(letter: char) -> bool
    ensures value { result ≡ ends_line letter }
    ensures range { IsTrue result → letter < 2 ^ 16 }
{
    letter.is_control() || letter == '\u{2028}' || letter == '\u{2029}'
}
