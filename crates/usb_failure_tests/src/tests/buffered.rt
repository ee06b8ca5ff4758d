//! A host against the controller side that plays a plan, where each side sees of the other what that one has flushed.
use super::frail::Late;
use super::plans::{PLUG_THERMOMETER, THERMOMETER};
use std::alloc::{AllocError, Global};
use std::cell::RefCell;
use std::io::{Error, ErrorKind, Read, Write};
use std::test::Fail;
use std::{io, mem};
use usb_far::{FarEnd, serve};
use usb_live::live;
use usb_plan::read_plan;
use usb_sim::Tracer;
use usb_watch::Watched;

/// One device, a listing, and a transfer.
const PLAN: &[&str] = &[
    "\nlimit = 1000\nroots = 1\n",
    THERMOMETER,
    PLUG_THERMOMETER,
    r#"
[[event]]
do = "show"

[[event]]
do = "clear"
path = "1"
"#,
];

/// What the host reports of that.
const TOLD: &str = "listing 1\n\
                    1 address 1 full 120100020000004034127856000100000001\n\
                    1 config 0 0902120001010080320904000000FF000000 *\n\
                    end\n\
                    clear 1 failed no endpoint\n\
                    listing 2\n\
                    1 address 1 full 120100020000004034127856000100000001\n\
                    1 config 0 0902120001010080320904000000FF000000 *\n\
                    end\n";

/// A controller side, and the lines between it and a host.
#[derive(Drop)]
struct Link {
    alloc: Global,
    far: FarEnd<Tracer<Vec<u8>>>,
    /// What the host has written since it flushed.
    waiting: Vec<u8>,
    /// What the controller side has flushed, and how much of that was read.
    answers: Vec<u8>,
    read: usize,
    /// What the host has reported.
    told: Vec<u8>,
}

impl Link {
    /// The controller side reads the lines that the host has flushed.
    fn take(&mut self) -> io::Result<()> {
        let lines = mem::replace(&mut self.waiting, Vec::new(self.alloc));
        let mut reader = Watched::new(lines.as_slice());
        let mut writer = Watched::new(Late {
            kept: Vec::new(self.alloc),
            flushed: Vec::new(self.alloc),
            flushes_left: u64::MAX,
        });
        if serve(&mut self.far, &mut reader, &mut writer).is_err() {
            return Err(Error::from(ErrorKind::Other));
        }
        let said = writer.into_inner().flushed;
        self.answers.extend_from_slice(said.as_slice())?;
        if said.is_empty() {
            self.told.extend_from_slice(lines.as_slice())?;
        }
        Ok(())
    }
}

/// The host's end of a link, for reading and for writing.
#[derive(Clone, Copy, Drop)]
struct Ends<'a>(&'a RefCell<Link>);

impl Read for Ends<'_> {
    fn read(&mut self, buf: &mut [u8]) -> io::Result<usize> {
        let Ok(mut link) = self.0.try_borrow_mut() else {
            return Err(Error::from(ErrorKind::Other));
        };
        let mut left = link.answers.as_slice().get(link.read..).unwrap_or(&[]);
        let count = left.read(buf)?;
        link.read = link.read.saturating_add(count);
        Ok(count)
    }
}

impl Write for Ends<'_> {
    fn write(&mut self, buf: &[u8]) -> io::Result<usize> {
        let Ok(mut link) = self.0.try_borrow_mut() else {
            return Err(Error::from(ErrorKind::Other));
        };
        link.waiting.extend_from_slice(buf)?;
        Ok(buf.len())
    }

    fn flush(&mut self) -> io::Result<()> {
        let Ok(mut link) = self.0.try_borrow_mut() else {
            return Err(Error::from(ErrorKind::Other));
        };
        link.take()
    }
}

#[test]
fn both_ends(rt: HostRuntime) -> Result<(), Fail> {
    let alloc = rt.alloc();
    let text = PLAN.concat(alloc)?;
    let Ok(plan) = read_plan(alloc, text.as_str()) else {
        return Err(Fail::from(AllocError));
    };
    let link = RefCell::new(Link {
        alloc,
        far: FarEnd::new(alloc, &plan, Watched::new(Vec::new(alloc)))?,
        waiting: Vec::new(alloc),
        answers: Vec::new(alloc),
        read: 0,
        told: Vec::new(alloc),
    });
    let ends = Ends(&link);
    let (ended, _reader, writer) = live(alloc, Watched::new(ends), Watched::new(ends), 1000, false);
    assert_eq!(rt; (ended, writer.is_pending()), (Ok(()), false));
    let Link { told, .. } = link.into_inner();
    assert_eq!(rt; str::from_utf8(told.as_slice()).ok(), Some(TOLD));
    Ok(())
}
