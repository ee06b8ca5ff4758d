//! The drivers over a live bus (`docs/output/live.md`): they do jobs, and say on standard error what they see.

use crate::disk::Disk;
use crate::fault::DriverFault;
use crate::job::Job;
use crate::keyboard::Keyboard;
use crate::report::Report;
use crate::settle;
use anyhow::Result;
use std::alloc::Global;
use std::io::{self, BufReader, Read, Write};
use usb_bus::Bus;
use usb_host::{Host, News, PortPath};
use usb_stream::StreamBus;
use usb_watch::Watched;
use usb_wire::Answer;

/// The most news between two turns: each address left, and each arrived.
const MOST_NEWS: u16 = 254;

/// Does jobs over a far end on standard input and output, one after the other, until all are done or
/// the end is requested.
pub(crate) fn live<R: Input + Print + Eprint + AllocGlobal>(rt: &R, jobs: &[Job]) -> Result<()> {
    let reader = Watched::new(BufReader::new(rt.alloc(), rt.reader())?);
    let bus = StreamBus::open(reader, Watched::new(io::writer(rt)), u64::MAX);
    let mut host = Host::new(rt.alloc(), bus);
    let done = work(rt, &mut host, jobs);
    match host.bus().fault() {
        Some(fault) => Err(fault.into()),
        None => done,
    }
}

/// Does the jobs in order, until all are done or the end is requested.
fn work<S: Eprint + AllocGlobal, R: Read, W: Write>(
    rt: &S,
    host: &mut Host<StreamBus<R, W>>,
    jobs: &[Job],
) -> Result<()> {
    let mut desk = Desk::new();
    'jobs: for job in jobs {
        desk.begin(*job);
        if !finish(rt, host, &mut desk, *job)? {
            break;
        }
    }
    Ok(())
}

/// Whether a job was done before the end was requested.
fn finish<S: Eprint + AllocGlobal, R: Read, W: Write>(
    rt: &S,
    host: &mut Host<StreamBus<R, W>>,
    desk: &mut Desk,
    job: Job,
) -> Result<bool> {
    'turns: for _ in 0..u64::MAX {
        settle(host)?;
        desk.hear(rt, host)?;
        if desk.work(rt, host, job)? {
            return Ok(true);
        }
        if matches!(host.bus_mut().wait()?, Answer::End) {
            break;
        }
    }
    Ok(false)
}

/// The keyboard and the disk that came last.
#[derive(Drop)]
struct Desk {
    keyboard: Option<Keyboard>,
    /// What the keyboard reported last.
    last: Report,
    /// How many more keys are awaited.
    awaited: u32,
    disk: Option<Disk>,
}

impl Desk {
    fn new() -> Desk {
        Desk {
            keyboard: None,
            last: Report::none(),
            awaited: 0,
            disk: None,
        }
    }

    /// Notes how many keys a job awaits, if it is one that shows keys.
    fn begin(&mut self, job: Job) {
        if let Job::Keys(count) = job {
            self.awaited = count;
        }
    }

    /// Hears which devices left and arrived.
    fn hear<B: Bus>(&mut self, rt: &impl Eprint, host: &mut Host<B>) -> Result<()> {
        'news: for _ in 0..MOST_NEWS {
            match host.next_news() {
                Some(News::Left(path)) => eprintln!(rt; "port {}: gone", path.text())?,
                Some(News::Arrived(path)) => self.meet(rt, host, &path)?,
                None => break,
            }
        }
        Ok(())
    }

    /// Takes the device at a path, if it is a keyboard or a disk.
    fn meet<B: Bus>(
        &mut self,
        rt: &impl Eprint,
        host: &mut Host<B>,
        path: &PortPath,
    ) -> Result<()> {
        match Keyboard::open(host, path) {
            Ok(keyboard) => {
                eprintln!(rt; "port {}: a keyboard", path.text())?;
                self.keyboard = Some(keyboard);
                self.last = Report::none();
                return Ok(());
            }
            Err(DriverFault::Alien) => {}
            Err(fault) => eprintln!(rt; "port {}: {fault}", path.text())?,
        }
        match Disk::open(host, path) {
            Ok(disk) => {
                let size = disk.capacity();
                eprintln!(rt;
                    "port {}: a disk, {} bytes a block, last block {}",
                    path.text(),
                    size.block,
                    size.last
                )?;
                self.disk = Some(disk);
            }
            Err(DriverFault::Alien) => {}
            Err(fault) => eprintln!(rt; "port {}: {fault}", path.text())?,
        }
        Ok(())
    }

    /// Does what can be done of a job now, and returns whether it is done.
    fn work<S: Eprint + AllocGlobal, B: Bus>(
        &mut self,
        rt: &S,
        host: &mut Host<B>,
        job: Job,
    ) -> Result<bool> {
        match job {
            Job::Keys(_) => self.type_on(rt, host),
            _ => self.move_blocks(rt, host, job),
        }
    }

    /// Says which keys are pressed, until none is awaited or no report is left.
    fn type_on<B: Bus>(&mut self, rt: &impl Eprint, host: &mut Host<B>) -> Result<bool> {
        'reports: for _ in 0..u32::MAX {
            if self.awaited == 0 {
                return Ok(true);
            }
            match self.report(rt, host)? {
                Some(report) => self.show_keys(rt, &report)?,
                None => break,
            }
        }
        Ok(false)
    }

    /// What the keyboard reports now. One that is gone is forgotten.
    fn report<B: Bus>(&mut self, rt: &impl Eprint, host: &mut Host<B>) -> Result<Option<Report>> {
        let Some(keyboard) = &self.keyboard else {
            return Ok(None);
        };
        match keyboard.report(host) {
            Ok(report) => return Ok(report),
            Err(DriverFault::Gone) => self.keyboard = None,
            Err(fault) => eprintln!(rt; "keyboard: {fault}")?,
        }
        Ok(None)
    }

    /// Shows the keys that are pressed since the last report. Each is one less to await.
    fn show_keys(&mut self, rt: &impl Eprint, report: &Report) -> Result<()> {
        'keys: for key in report.pressed_since(&self.last).as_slice() {
            eprintln!(rt; "key {key} with {}", report.modifiers)?;
            self.awaited = self.awaited.saturating_sub(1);
        }
        self.last = *report;
        Ok(())
    }

    /// Has the disk do a job. One that is gone is forgotten, and the job waits for another.
    fn move_blocks<S: Eprint + AllocGlobal, B: Bus>(
        &mut self,
        rt: &S,
        host: &mut Host<B>,
        job: Job,
    ) -> Result<bool> {
        let Some(disk) = &mut self.disk else {
            return Ok(false);
        };
        match done(host, disk, job) {
            Ok(Some((first, bytes))) => show_blocks(rt, first, disk, bytes.as_slice())?,
            Ok(None) => eprintln!(rt; "done")?,
            Err(DriverFault::Gone) => {
                self.disk = None;
                return Ok(false);
            }
            Err(fault) => {
                eprintln!(rt; "disk: {fault}")?;
                recover(rt, host, disk, fault)?;
            }
        }
        Ok(true)
    }
}

/// Has a disk do a job. Returns the blocks that are to be shown, and the number of the first one.
fn done<B: Bus>(
    host: &mut Host<B>,
    disk: &mut Disk,
    job: Job,
) -> Result<Option<(u32, Vec<u8>)>, DriverFault> {
    match job {
        Job::Keys(_) => {}
        Job::Blocks { first, count } => return Ok(Some((first, disk.read(host, first, count)?))),
        Job::Copy { from, to, count } => {
            let bytes = disk.read(host, from, count)?;
            disk.write(host, to, bytes.as_slice())?;
        }
        Job::Recover => disk.recover(host)?,
    }
    Ok(None)
}

/// Lets disk and host begin again behind a fault that needs it.
fn recover<B: Bus>(
    rt: &impl Eprint,
    host: &mut Host<B>,
    disk: &Disk,
    fault: DriverFault,
) -> Result<()> {
    if matches!(fault, DriverFault::Host(_) | DriverFault::OutOfStep) {
        if let Err(fault) = disk.recover(host) {
            eprintln!(rt; "disk: {fault}")?;
        }
    }
    Ok(())
}

/// Shows blocks in hexadecimal digits, each after its number; the first has this one.
fn show_blocks<S: Eprint + AllocGlobal>(
    rt: &S,
    first: u32,
    disk: &Disk,
    bytes: &[u8],
) -> Result<()> {
    let block = usize::from(disk.capacity().block);
    'blocks: for (number, bytes) in (first..u32::MAX).zip(bytes.chunks(block)) {
        let text = hex::encode_upper(rt.alloc(), bytes)?;
        eprintln!(rt; "block {number} {text}")?;
    }
    Ok(())
}
