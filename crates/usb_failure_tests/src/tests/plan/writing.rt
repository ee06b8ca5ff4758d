//! The lines as they are written, to writers that take n bytes.
use super::FUNCTION;
use std::alloc::{AllocError, Global};
use std::io;
use std::io::Write;
use std::process::Abort;
use usb_diagnosis::{CheckFault, Verdict, check};
use usb_watch::Watched;

/// All that is reported of the plan.
const TOLD: &str = "devices 1\nevents 0\ndamages 0\nbound 2\n";

/// A writer that takes n bytes, and then fails.
#[derive(Drop)]
struct Frail {
    taken: Vec<u8>,
    room: usize,
}

impl Write for Frail {
    ghost use Rattle.std.specs.Prelude.{Some};

    ghost contents = { λ f. Some f.taken.items };

    fn write(&mut self, buf: &[u8]) -> io::Result<usize> {
        if self.taken.len() >= self.room {
            return Err(io::Error::from(io::ErrorKind::BrokenPipe));
        }
        match buf.first() {
            None => Ok(0),
            Some(byte) => {
                self.taken.push(*byte)?;
                Ok(1)
            }
        }
    }

    fn flush(&mut self) -> io::Result<()> {
        Ok(())
    }
}

/// Checks what is reported, and how much of it, of a writer with so much room.
fn check_room(rt: &impl Abort, alloc: Global, room: usize) -> Result<(), AllocError> {
    let mut writer = Watched::new(Frail {
        taken: Vec::new(alloc),
        room,
    });
    let result = check(alloc, "p.toml", FUNCTION.as_bytes(), &mut writer);
    let expected = if room < TOLD.len() {
        Err(CheckFault::Write)
    } else {
        Ok(Verdict::Plan)
    };
    assert!(rt; result == expected, "with room for {room}");
    assert!(rt;
        writer.failed() == expected.is_err(),
        "with room for {room}"
    );
    let taken = writer.into_inner().taken;
    let told = TOLD.as_bytes();
    assert!(rt;
        taken.as_slice() == &told[..room.min(told.len())],
        "with room for {room}"
    );
    Ok(())
}

#[test]
fn a_writer_that_fails(rt: HostRuntime) -> Result<(), AllocError> {
    for room in 0..40usize {
        check_room(&rt, rt.alloc(), room)?;
    }
    Ok(())
}
