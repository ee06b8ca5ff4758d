//! What a line says.
ghost use Rattle.std.specs.Prelude.{◌≡◌, option_map};
ghost use Rattle.usb_verdict.specs.Lines.{cut_space, device_said, config_said, hub_said, line_says};
ghost use Rattle.usb_verdict.specs.Lines.{port_said, result_map, said, speed_named, three_words};

use crate::fault::ListingFault;
use crate::number::number_in;
use usb_port::PortPath;

/// What a line of a listing says. Bytes are in hexadecimal digits still (`read_bytes`).
#[derive(Debug, Drop)]
pub enum ListingLine<'a> {
    /// A device is accepted at a port.
    Device {
        /// The port.
        path: PortPath,
        /// The address that it was given.
        address: u8,
        /// Whether it is a low-speed device; else it is a full-speed one.
        low: bool,
        /// Its device descriptor.
        descriptor: &'a str,
    },
    /// A device is refused at this port.
    Refused(PortPath),
    /// The configuration that was chosen for the device at a port.
    Chosen(PortPath, &'a str),
    /// How many ports the hub at a port has.
    Hub(PortPath, u8),
    /// What is not judged: a configuration that was not chosen, a string, or what was said.
    Other(PortPath),
}

/// What a line of a listing says.
///
/// # Errors
///
/// The first of these that applies:
///
/// - `NoLine`: no line of a listing has such a second word, or that number of words.
/// - `BadPath`: the first word is no path.
/// - `BadNumber`: in the place of an address or of a number of ports is none, or one over 255.
/// - `BadSpeed`: in the place of a speed is none.
#[tactic(auto, unfolding(crate::specs::Lines::line_says))]
pub fn read_listing_line(line: &str) -> Result<ListingLine<'_>, ListingFault>
    ensures { line_says line.now ≡ result_map said result }
{
    let Some((path, behind)) = cut_space(line) else {
        return Err(ListingFault::NoLine);
    };
    let Some((word, behind)) = cut_space(behind) else {
        return Err(ListingFault::NoLine);
    };
    match PortPath::from_text(path) {
        Some(path) => port_said(path, word, behind),
        None => Err(ListingFault::BadPath),
    }
}

/// What is said of a port.
#[tactic(auto, unfolding(crate::specs::Lines::port_said))]
fn port_said<'a>(
    path: PortPath,
    word: &str,
    behind: &'a str,
) -> Result<ListingLine<'a>, ListingFault>
    ensures { port_said path word.now behind.now ≡ result_map said result }
{
    match word {
        "address" => device_said(path, behind),
        "refused" => Ok(ListingLine::Refused(path)),
        "config" => config_said(path, behind),
        "hub" => hub_said(path, behind),
        "manufacturer" | "product" | "serial" | "said" => Ok(ListingLine::Other(path)),
        _ => Err(ListingFault::NoLine),
    }
}

/// `A SPEED HEX`.
#[tactic(auto, unfolding(crate::specs::Lines::device_said))]
fn device_said(path: PortPath, text: &str) -> Result<ListingLine<'_>, ListingFault>
    ensures { device_said path text.now ≡ result_map said result }
{
    let Some((number, speed, descriptor)) = three_words(text) else {
        return Err(ListingFault::NoLine);
    };
    let Some(address) = number_in(number.as_bytes()) else {
        return Err(ListingFault::BadNumber);
    };
    match speed_named(speed) {
        Some(low) => Ok(ListingLine::Device {
            path,
            address,
            low,
            descriptor,
        }),
        None => Err(ListingFault::BadSpeed),
    }
}

/// `I HEX`, and a star behind the one that was chosen.
#[tactic(auto, unfolding(crate::specs::Lines::config_said))]
fn config_said(path: PortPath, text: &str) -> Result<ListingLine<'_>, ListingFault>
    ensures { config_said path text.now ≡ result_map said result }
{
    match three_words(text) {
        Some((_, bytes, "*")) => Ok(ListingLine::Chosen(path, bytes)),
        Some(_) => Err(ListingFault::NoLine),
        None => Ok(ListingLine::Other(path)),
    }
}

/// `N ports S mA`.
#[tactic(auto, unfolding(crate::specs::Lines::hub_said))]
fn hub_said(path: PortPath, text: &str) -> Result<ListingLine<'_>, ListingFault>
    ensures { hub_said path text.now ≡ result_map said result }
{
    let Some((number, _)) = cut_space(text) else {
        return Err(ListingFault::NoLine);
    };
    match number_in(number.as_bytes()) {
        Some(ports) => Ok(ListingLine::Hub(path, ports)),
        None => Err(ListingFault::BadNumber),
    }
}

/// Whether a word is that of low speed; None if it is no speed.
fn speed_named(word: &str) -> Option<bool>
    ensures { result ≡ speed_named word.now }
{
    match word {
        "full" => Some(false),
        "low" => Some(true),
        _ => None,
    }
}

/// The three words of a text; None if it has another number of words.
#[tactic(auto, unfolding(crate::specs::Lines::three_words))]
fn three_words(text: &str) -> Option<(&str, &str, &str)>
    ensures { three_words text.now
        ≡ option_map (λ words. (words.0.now, words.1.now, words.2.now)) result }
{
    let (first, behind) = cut_space(text)?;
    let (second, third) = cut_space(behind)?;
    match cut_space(third) {
        Some(_) => None,
        None => Some((first, second, third)),
    }
}

/// What is before the first space of a text, and behind it; None if it has none.
pub fn cut_space(text: &str) -> Option<(&str, &str)>
    ensures { cut_space text.now ≡ option_map (λ cut. (cut.0.now, cut.1.now)) result }
{
    text.split_once(' ')
}
