//! A host before a controller side, where its reader or its writer fails: what it says is a prefix of its course.
use super::ends::{frail, newlines};
use super::frail::Cut;
use std::alloc::Global;
use std::io::Read;
use std::test::Fail;
use usb_live::{LiveEnd, LiveFault, live};
use usb_watch::Watched;

/// What a controller side with one device says up to its second `wait`: the course of docs/output/live.md.
const FAR: &str = "roots 1\n\
                   ok\n\
                   port 1 00010000\nok\n\
                   port 1 01010100\nok\n\
                   port 1 01010000\nok\n\
                   port 1 03011000\nok\n\
                   port 1 03010000\nok\n\
                   ACK\nDATA1 1201000200000040\nACK\n\
                   ACK\nDATA1 -\n\
                   ACK\nDATA1 120100020000004034127856000100000001\nACK\n\
                   ACK\nDATA1 090212000101008032\nACK\n\
                   ACK\nDATA1 0902120001010080320904000000FF000000\nACK\n\
                   ACK\nDATA1 -\n";

/// What the host says to it.
const HOST: &str = "usbplan live 1\n\
                    port 1 clear PORT_POWER\n\
                    port 1 set PORT_POWER\n\
                    wait\n\
                    port 1 clear C_PORT_CONNECTION\n\
                    port 1 set PORT_RESET\n\
                    port 1 clear C_PORT_RESET\n\
                    SETUP 0.0 / DATA0 8006000100000800\nIN 0.0 8\nOUT 0.0 / DATA1 -\n\
                    SETUP 0.0 / DATA0 0005010000000000\nIN 0.0 64\n\
                    SETUP 1.0 / DATA0 8006000100001200\nIN 1.0 64\nOUT 1.0 / DATA1 -\n\
                    SETUP 1.0 / DATA0 8006000200000900\nIN 1.0 64\nOUT 1.0 / DATA1 -\n\
                    SETUP 1.0 / DATA0 8006000200001200\nIN 1.0 64\nOUT 1.0 / DATA1 -\n\
                    SETUP 1.0 / DATA0 0009010000000000\nIN 1.0 64\n\
                    wait\n";

/// What a host has written, and how that ended.
#[derive(Drop)]
struct Played {
    host: Vec<u8>,
    ended: Result<(), LiveEnd>,
}

/// The course of a host over a reader, whose writer fails after n writes.
fn play<R: Read + Drop>(alloc: Global, reader: R, writes: u64) -> Played {
    let writer = Watched::new(frail(alloc, writes));
    let (ended, _reader, writer) = live(alloc, Watched::new(reader), writer, u64::MAX, false);
    Played {
        host: writer.into_inner().taken,
        ended,
    }
}

/// The input fails, or ends, after each number of bytes: nothing is reported unless the end takes the place of `end`.
#[test]
fn cut(rt: HostRuntime) -> Result<(), Fail> {
    for count in 0..FAR.len() {
        let front = &FAR.as_bytes()[..count];
        let failed = play(rt.alloc(), Cut(front), u64::MAX);
        let ended = play(rt.alloc(), front, u64::MAX);
        let line = (newlines(front) as u64).saturating_add(1);
        let read = Err(LiveEnd::Line(line, LiveFault::Read));
        assert_eq!(rt; failed.ended, read, "{count} bytes");
        let host = failed.host.as_slice();
        assert!(rt; HOST.as_bytes().starts_with(host), "{count} bytes");
        let is_end = ended.ended.is_ok();
        let gone = Err(LiveEnd::Line(line, LiveFault::Gone));
        assert!(rt; is_end || ended.ended == gone, "{count} bytes");
        assert_eq!(rt;
            is_end,
            host.ends_with(b"wait\n") && front.ends_with(b"\n"),
            "{count} bytes"
        );
        let told = ended.host.as_slice();
        assert!(rt; told.starts_with(host), "{count} bytes");
        assert!(rt; is_end || told == host, "{count} bytes");
    }
    Ok(())
}

/// Each write fails in turn: what has gone out is the lines before it.
#[test]
fn writes(rt: HostRuntime) -> Result<(), Fail> {
    let whole = play(rt.alloc(), FAR.as_bytes(), u64::MAX);
    for writes in 0..newlines(HOST.as_bytes()).saturating_add(1) {
        let played = play(rt.alloc(), FAR.as_bytes(), writes as u64);
        assert!(rt;
            matches!(played.ended, Err(LiveEnd::Line(_, LiveFault::Write))),
            "{writes} writes"
        );
        assert_eq!(rt; newlines(played.host.as_slice()), writes, "{writes} writes");
        assert!(rt;
            whole.host.as_slice().starts_with(played.host.as_slice()),
            "{writes} writes"
        );
    }
    Ok(())
}
