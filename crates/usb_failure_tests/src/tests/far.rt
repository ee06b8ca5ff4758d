//! A controller side that plays a plan, where its reader or its writer fails, and as a loop over its pieces.
ghost use Rattle.usb_wire.specs.Questions.{IsQuestion};

use super::ends::{frail, newlines};
use super::frail::Cut;
use super::plans::{BULK, PLUG_BULK};
use std::alloc::{AllocError, Global};
use std::io::Read;
use std::test::Fail;
use usb_far::{Came, FarEnd, FarFault, HostLine, Phase, serve};
use usb_plan::read_plan;
use usb_sim::Untraced;
use usb_watch::Watched;
use usb_wire::Question;

/// The digits of 150 bytes of a text over several lines.
const ZEROS: &str =
    r#"0000000000000000000000000000000000000000000000000000000000000000000000000000000000000000000000000000\
0000000000000000000000000000000000000000000000000000000000000000000000000000000000000000000000000000\
0000000000000000000000000000000000000000000000000000000000000000000000000000000000000000000000000000\
"#;

/// A disk that is plugged, pulled out in the fourth attempt and plugged elsewhere, and what its user wants then; the
/// last of that is to write 481 bytes.
const PLAN: &[&str] = &[
    r#"
limit = 8
roots = 2

[[device]]
name = "disk"
speed = "full"
descriptor = "120100020000004034127856000100000001"
configs = ["0902120001010080320904000000FF000000"]

[[event]]
do = "plug"
path = "1"
device = "disk"

[[event]]
do = "unplug"
path = "1"
after = 3

[[event]]
do = "plug"
path = "2"
device = "disk"

[[event]]
do = "send"
path = "1"
bytes = "0102"

[[event]]
do = "receive"
path = "2"
packets = 3

[[event]]
do = "clear"
path = "2"

[[event]]
do = "show"

[[event]]
do = "control"
path = "2"
setup = "210900020000E101"
bytes = """\
"#,
    ZEROS,
    ZEROS,
    ZEROS,
    r#"00000000000000000000000000000000000000000000000000000000000000"""
"#,
];

/// A device with bulk endpoints of packets of 8 bytes, which gives 20 bytes.
const BULK_DEVICE: &[&str] = &["\nlimit = 100\nroots = 1\n", BULK, PLUG_BULK];

/// A plan, and what a host says. What is said to it is in `tests/far.rows`.
#[derive(Clone, Copy)]
struct Row {
    plan: &'static [&'static str],
    host: &'static str,
}

/// A course with each question, a push before some answers, and reported lines.
const COURSE: Row = Row {
    plan: PLAN,
    host: "usbplan live 1\n\
           port 1 set PORT_POWER\n\
           wait\n\
           port 1 clear C_PORT_CONNECTION\n\
           port 1 set PORT_RESET\n\
           SETUP 0.0 / DATA0 8006000100000800\n\
           IN 0.0 64\n\
           low OUT 0.0 / DATA1 -\n\
           PRE OUT 0.0 / PRE DATA1 -\n\
           port 1 clear C_PORT_RESET\n\
           wait\n\
           send 1 failed no device\n\
           port 2 set PORT_POWER\n\
           wait\n\
           receive 2 failed no device\n\
           wait\n\
           clear 2 failed no device\n\
           wait\n\
           listing 1\n\
           wait\n\
           \u{e9}\n\
           end\n",
};

/// Rows of attempts: each has the answers of its attempts, up to the one that moves no packet.
const BULK_ROWS: Row = Row {
    plan: BULK_DEVICE,
    host: "usbplan live 1\n\
           port 1 set PORT_POWER\nwait\nport 1 clear C_PORT_CONNECTION\n\
           port 1 set PORT_RESET\nport 1 clear C_PORT_RESET\n\
           SETUP 0.0 / DATA0 0005010000000000\nIN 0.0 64\n\
           SETUP 1.0 / DATA0 0009010000000000\nIN 1.0 64\n\
           IN 1.2 8 DATA0 2\n\
           IN 1.2 8 DATA0 64\n\
           IN 1.2 8 DATA1 64\n\
           OUT 1.2 / DATA0 000102030405060708090A0B0C0D0E0F1011 8\n\
           OUT 1.2 / DATA1 00 8\n\
           low OUT 1.2 / DATA1 000102 1\n\
           PRE OUT 1.2 / PRE DATA1 000102 1\n\
           wait\n",
};

/// What is said to the host, and how that ended.
#[derive(Drop)]
struct Played {
    far: Vec<u8>,
    ended: Result<(), (u64, FarFault)>,
}

/// What is written to a writer that fails after n writes, of what a reader gives.
fn play<R: Read + Drop>(
    alloc: Global,
    plan: &[&str],
    reader: R,
    writes: u64,
) -> Result<Played, AllocError> {
    let text = plan.concat(alloc)?;
    let Ok(plan) = read_plan(alloc, text.as_str()) else {
        return Err(AllocError);
    };
    let mut far = FarEnd::new(alloc, &plan, Watched::new(Vec::new(alloc)))?;
    let mut reader = Watched::new(reader);
    let mut writer = Watched::new(frail(alloc, writes));
    let ended = serve(&mut far, &mut reader, &mut writer);
    Ok(Played {
        far: writer.into_inner().taken,
        ended,
    })
}

/// A loop of its own over the pieces says what `serve` says, gets each reported line, and sees the attempts.
#[test]
fn pieces(rt: HostRuntime) -> Result<(), Fail> {
    for (row, begin) in [(COURSE, "send 1 failed no device"), (BULK_ROWS, "")] {
        let whole = play(rt.alloc(), row.plan, row.host.as_bytes(), u64::MAX)?;
        let text = row.plan.concat(rt.alloc())?;
        let Ok(plan) = read_plan(rt.alloc(), text.as_str()) else {
            return Err(Fail::from(AllocError));
        };
        let mut far = FarEnd::untraced(rt.alloc(), &plan)?;
        let mut reader = Watched::new(row.host.as_bytes());
        let mut said = Vec::new(rt.alloc());
        let mut told = Vec::new(rt.alloc());
        for _ in 0..100u8 {
            match far.next_line(&mut reader) {
                Ok(HostLine::Ended) => break,
                Ok(HostLine::Told(line)) => told.extend_from_slice(line.as_slice())?,
                Ok(HostLine::Asked(question)) => say_all(&mut far, question, &mut said)?,
                Err(fault) => assert_eq!(rt; Some(fault), None),
            }
        }
        assert_eq!(rt; said.as_slice(), whole.far.as_slice());
        assert_eq!(rt; far.phase(), Phase::Asks);
        assert_eq!(rt; far.put_line(b"over"), Ok(()));
        assert!(rt; text_of(told.as_slice()).starts_with(begin));
    }
    Ok(())
}

/// The replies to a question. An attempt that was taken, or had no good answer, was made.
fn say_all(
    far: &mut FarEnd<Untraced>,
    question: Question,
    said: &mut Vec<u8>,
) -> Result<(), AllocError>
    requires { IsQuestion question }
{
    let mut asked = question;
    'attempts: for _ in 0..64u8 {
        let before = far.bus().attempts();
        let Ok(reply) = far.reply(&asked) else {
            return Err(AllocError);
        };
        if reply.came != Came::Other && far.bus().attempts() == before {
            return Err(AllocError);
        }
        said.extend_from_slice(reply.lines.as_slice())?;
        match reply.rest {
            Some(rest) => asked = rest,
            None => return Ok(()),
        }
    }
    Ok(())
}

/// The input ends, or fails, after each number of bytes: what has gone out are the replies to whole lines.
#[test]
fn cut(rt: HostRuntime) -> Result<(), Fail> {
    for (row, first) in [(COURSE, 0), (BULK_ROWS, 270)] {
        let host = row.host.as_bytes();
        let whole = play(rt.alloc(), row.plan, host, u64::MAX)?;
        for count in first..host.len() {
            let front = &host[..count];
            let line = (newlines(front) as u64).saturating_add(1);
            let in_line = front.last().is_some_and(|byte| *byte != b'\n');
            let gone = if in_line {
                Err((line, FarFault::HostGone))
            } else {
                Ok(())
            };
            let ended = play(rt.alloc(), row.plan, front, u64::MAX)?;
            assert_eq!(rt; ended.ended, gone, "{count} bytes");
            let failed = play(rt.alloc(), row.plan, Cut(front), u64::MAX)?;
            assert_eq!(rt; failed.ended, Err((line, FarFault::Read)), "{count} bytes");
            assert_eq!(rt;
                failed.far.as_slice(),
                ended.far.as_slice(),
                "{count} bytes"
            );
            assert!(rt;
                whole.far.starts_with(ended.far.as_slice()),
                "{count} bytes"
            );
        }
    }
    Ok(())
}

/// Each write fails in turn: a prefix of the text has gone out.
#[test]
fn writes(rt: HostRuntime) -> Result<(), Fail> {
    for (row, all) in [(COURSE, 15u64), (BULK_ROWS, 19)] {
        let whole = play(rt.alloc(), row.plan, row.host.as_bytes(), u64::MAX)?;
        assert_eq!(rt; whole.ended, Ok(()));
        for writes in 0..all {
            let played = play(rt.alloc(), row.plan, row.host.as_bytes(), writes)?;
            let fault = played.ended.err().map(|(_, fault)| fault);
            assert_eq!(rt; fault, Some(FarFault::Write), "{writes} writes");
            assert!(rt;
                whole.far.starts_with(played.far.as_slice()),
                "{writes} writes"
            );
            assert!(rt; played.far.len() < whole.far.len(), "{writes} writes");
        }
    }
    Ok(())
}

fn text_of(bytes: &[u8]) -> &str {
    str::from_utf8(bytes).ok().unwrap_or("no text")
}
