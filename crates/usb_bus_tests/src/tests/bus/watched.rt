//! Writers and readers that are watched.

use std::alloc::Global;
use std::io;
use std::io::{Error, ErrorKind, Read, Write};
use std::test::Fail;
use usb_watch::{Watched, WriteFailed, put_piece};

/// A writer that takes a few bytes at a time, and fails at its Nth write.
#[derive(Drop)]
pub(super) struct Frail {
    pub(super) taken: Vec<u8>,
    pub(super) at_once: usize,
    pub(super) writes_left: u64,
}

impl Write for Frail {
    ghost use Rattle.std.specs.Prelude.{Some};

    ghost contents = { λ f. Some f.taken.items };

    fn write(&mut self, buf: &[u8]) -> io::Result<usize> {
        if self.writes_left == 0 {
            return Err(Error::from(ErrorKind::Other));
        }
        self.writes_left -= 1;
        let n = buf.len().min(self.at_once);
        self.taken.extend_from_slice(&buf[..n])?;
        Ok(n)
    }

    fn flush(&mut self) -> io::Result<()> {
        Ok(())
    }
}

/// A reader that fails once its bytes are gone.
#[derive(Drop)]
struct Torn<'a>(&'a [u8]);

impl Read for Torn<'_> {
    fn read(&mut self, buf: &mut [u8]) -> io::Result<usize> {
        let n = self.0.read(buf)?;
        if n == 0 {
            return Err(Error::from(ErrorKind::Other));
        }
        Ok(n)
    }
}

#[test]
fn a_vector_gets_the_piece(rt: HostRuntime) -> Result<(), Fail> {
    let mut writer = Watched::new(Vec::new(rt.alloc()));
    put_piece(&mut writer, b"listing 1\n")?;
    writer.flush()?;
    assert_eq!(rt; (writer.failed(), writer.calls()), (false, 1));
    assert_eq!(rt; writer.into_inner().as_slice(), b"listing 1\n".as_slice());
    Ok(())
}

/// How many bytes a writer takes at a time and how many writes there may be, and what becomes of the piece.
#[derive(Clone, Copy)]
struct Piece {
    at_once: usize,
    writes: u64,
    ended: Result<(), WriteFailed>,
    calls: u64,
    taken: usize,
}

const PIECES: &[Piece] = &[
    Piece {
        at_once: 1,
        writes: 0,
        ended: Err(WriteFailed),
        calls: 1,
        taken: 0,
    },
    Piece {
        at_once: 1,
        writes: 1,
        ended: Err(WriteFailed),
        calls: 2,
        taken: 1,
    },
    Piece {
        at_once: 1,
        writes: 2,
        ended: Err(WriteFailed),
        calls: 3,
        taken: 2,
    },
    Piece {
        at_once: 1,
        writes: 3,
        ended: Err(WriteFailed),
        calls: 4,
        taken: 3,
    },
    Piece {
        at_once: 1,
        writes: 4,
        ended: Ok(()),
        calls: 4,
        taken: 4,
    },
    Piece {
        at_once: 0,
        writes: 9,
        ended: Err(WriteFailed),
        calls: 1,
        taken: 0,
    },
];

/// What became of a piece: how it ended, the mark, the calls, and the bytes taken.
#[derive(Clone, Copy, Debug, PartialEq)]
struct Put {
    ended: Result<(), WriteFailed>,
    is_marked: bool,
    calls: u64,
    taken: usize,
    is_front: bool,
}

fn end_put(alloc: Global, at_once: usize, writes_left: u64) -> Put {
    let mut writer = Watched::new(Frail {
        taken: Vec::new(alloc),
        at_once,
        writes_left,
    });
    let ended = put_piece(&mut writer, b"end\n");
    let is_marked = writer.failed();
    let calls = writer.calls();
    let taken = writer.into_inner().taken;
    Put {
        ended,
        is_marked,
        calls,
        taken: taken.len(),
        is_front: b"end\n".as_slice().starts_with(taken.as_slice()),
    }
}

#[test]
fn each_write_fails_in_turn(rt: HostRuntime) {
    for row in PIECES {
        let wanted = Put {
            ended: row.ended,
            is_marked: row.ended.is_err(),
            calls: row.calls,
            taken: row.taken,
            is_front: true,
        };
        assert_eq!(rt;
            end_put(rt.alloc(), row.at_once, row.writes),
            wanted,
            "at {}",
            row.writes
        );
    }
}

#[test]
fn a_torn_reader_is_marked(rt: HostRuntime) -> Result<(), Fail> {
    let mut reader = Watched::new(Torn(b"ab".as_slice()));
    let mut buf = [0u8; 4];
    assert_eq!(rt; reader.read(&mut buf)?, 2);
    assert!(rt; !reader.failed());
    let again = reader.read(&mut buf);
    assert_eq!(rt;
        (again.is_err(), reader.failed(), reader.calls()),
        (true, true, 2)
    );
    Ok(())
}
