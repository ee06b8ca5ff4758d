//! The lines of a listing, from the records of a tree.
use crate::record::{cause_of, cut};
use std::alloc::Global;
use usb_dialogue::DriverFault;
use usb_port::PortPath;
use usb_text::{push_cause, push_decimal, push_hex, push_units};

/// What is listed: its lines so far, and the last device, whose line of a hub comes behind its
/// configurations.
#[derive(Drop)]
struct Listing {
    alloc: Global,
    lines: Vec<u8>,
    path: Vec<u8>,
    configurations: u64,
    chosen: u64,
    ports: u8,
    said: bool,
}

/// Adds the lines of a listing. A line of a hub does not say how much power its ports give.
pub(crate) fn push_listing(
    alloc: Global,
    told: &mut Vec<u8>,
    records: &[u8],
    number: u64,
    said: bool,
) -> Result<(), DriverFault> {
    let mut listing = Listing {
        alloc,
        lines: Vec::new(alloc),
        path: Vec::new(alloc),
        configurations: 0,
        chosen: 0,
        ports: 0,
        said,
    };
    told.extend_from_slice(b"listing ")?;
    push_decimal(told, number)?;
    told.extend_from_slice(b"\n")?;
    listing.push_all(records)?;
    told.extend_from_slice(listing.lines.as_slice())?;
    told.extend_from_slice(b"end\n")?;
    Ok(())
}

impl Listing {
    /// Adds the lines of each record, up to the last.
    fn push_all(&mut self, records: &[u8]) -> Result<(), DriverFault> {
        let mut rest = records;
        'records: for _ in 0..records.len() {
            let Some((kind, body, after)) = cut(rest) else {
                return Err(DriverFault::Length);
            };
            if kind != 34 {
                self.push_hub()?;
            }
            match kind {
                32 => return Ok(()),
                33 => self.push_device(body)?,
                34 => self.push_configuration(body)?,
                35 => self.push_string(body)?,
                36 => self.push_refused(body)?,
                _ => return Err(DriverFault::Kind),
            }
            rest = after;
        }
        Err(DriverFault::Length)
    }

    /// Adds the path of the last device, and a word.
    fn begin(&mut self, word: &str) -> Result<(), DriverFault> {
        self.lines.extend_from_slice(self.path.as_slice())?;
        self.lines.extend_from_slice(word.as_bytes())?;
        Ok(())
    }

    /// Adds the line of a hub, once.
    fn push_hub(&mut self) -> Result<(), DriverFault> {
        if self.ports == 0 {
            return Ok(());
        }
        self.begin(" hub ")?;
        push_decimal(&mut self.lines, u64::from(self.ports))?;
        self.lines.extend_from_slice(b" ports\n")?;
        self.ports = 0;
        Ok(())
    }

    fn push_device(&mut self, body: &[u8]) -> Result<(), DriverFault> {
        let Some((head, descriptor)) = body.split_first_chunk::<20>() else {
            return Err(DriverFault::Length);
        };
        self.take_path(head)?;
        self.configurations = 0;
        self.chosen = u64::from(head[10]);
        self.ports = head[11];
        self.begin(" address ")?;
        push_decimal(&mut self.lines, u64::from(head[8]))?;
        let speed = if head[9] == 1 { " low " } else { " full " };
        self.lines.extend_from_slice(speed.as_bytes())?;
        push_hex(&mut self.lines, descriptor)?;
        Ok(self.lines.extend_from_slice(b"\n")?)
    }

    /// Takes the path that a record begins with.
    fn take_path(&mut self, place: &[u8]) -> Result<(), DriverFault> {
        let Some(path) = path_in(place) else {
            return Err(DriverFault::Number);
        };
        self.path = path.text().as_bytes().to_vec(self.alloc)?;
        Ok(())
    }

    fn push_configuration(&mut self, body: &[u8]) -> Result<(), DriverFault> {
        self.begin(" config ")?;
        push_decimal(&mut self.lines, self.configurations)?;
        self.lines.extend_from_slice(b" ")?;
        push_hex(&mut self.lines, body)?;
        if self.configurations == self.chosen {
            self.lines.extend_from_slice(b" *")?;
        }
        self.configurations = self.configurations.saturating_add(1);
        Ok(self.lines.extend_from_slice(b"\n")?)
    }

    fn push_string(&mut self, body: &[u8]) -> Result<(), DriverFault> {
        let Some((which, bytes)) = body.split_first() else {
            return Err(DriverFault::Length);
        };
        self.begin(match *which {
            0 => " manufacturer \"",
            1 => " product \"",
            2 => " serial \"",
            _ => return Err(DriverFault::Number),
        })?;
        let (units, _) = bytes.as_chunks::<2>();
        'units: for unit in units {
            push_units(&mut self.lines, &[u16::from_le_bytes(*unit)])?;
        }
        Ok(self.lines.extend_from_slice(b"\"\n")?)
    }

    fn push_refused(&mut self, body: &[u8]) -> Result<(), DriverFault> {
        let Some((head, said)) = body.split_first_chunk::<10>() else {
            return Err(DriverFault::Length);
        };
        let Some(cause) = cause_of(head[8], head[9]) else {
            return Err(DriverFault::Number);
        };
        self.take_path(head)?;
        self.begin(" refused ")?;
        push_cause(&mut self.lines, cause)?;
        self.lines.extend_from_slice(b"\n")?;
        if self.said && !said.is_empty() {
            self.begin(" said ")?;
            push_hex(&mut self.lines, said)?;
            self.lines.extend_from_slice(b"\n")?;
        }
        Ok(())
    }
}

/// The path of a place: the number of ports, and those.
pub(crate) fn path_in(place: &[u8]) -> Option<PortPath> {
    let (count, numbers) = place.split_first()?;
    let (first, more) = numbers.get(..usize::from(*count))?.split_first()?;
    let mut path = PortPath::root(*first)?;
    'ports: for number in more {
        if !path.push(*number) {
            return None;
        }
    }
    Some(path)
}
