//! A bus that knows its course.
ghost use Rattle.std.specs.Prelude.{◌≡◌, ◌^◌, ◌<◌, ℕ, None, false, option_map};
ghost use Rattle.usb_watch.specs.Pipes.{OutPipe as AnOutPipe, Pipe as APipe, out_pipe_of, pipe_of};
ghost use Rattle.usb_stream.specs.Stream.{SaysHello, kept_of, streams, unread_of, written_of};
ghost use Rattle.usb_live.specs.Course.{CourseTo, LiveHost, live_host};

use crate::end::{LiveEnd, end_of};
use crate::owed::{Owed, is_nothing, owed_by, settles};
use crate::stage::{Stage, stage_behind, stage_of};
use arrayvec::ArrayVec;
use std::io::{Read, Write};
use std::marker::{Brand, PhantomData};
use usb_bus::{Attempt, Bus, BusFault, Destination, Outcome, ROW_ROOM, RowDone, Toggle};
use usb_run::{Item, number_of};
use usb_stream::{LiveFault, StreamBus};
use usb_watch::Watched;
use usb_wire::Answer;

/// Where a course begins.
pub(crate) trait Begun {
    /// Whether the host takes wide hubs, and the most questions.
    ghost host: { LiveHost };

    /// The reader.
    ghost unread: { APipe };

    /// The writer.
    ghost before: { AnOutPipe };
}

impl Begun for Brand {
    ghost host = { live_host false 0 };

    ghost unread = { record { bytes = None; failed = false } };

    ghost before = { record { bytes = None; failed = false; pending = false } };
}

/// A bus over a stream of lines, with its course so far.
#[derive(Drop)]
pub(crate) struct CourseBus<R: Read, W: Write, B: Begun> {
    bus: StreamBus<R, W>,
    stage: Stage,
    owed: Owed,
    /// How many listings were reported.
    listings: u64,
    begun: PhantomData<B>,
    ghost bounded: { B.host.limit < 2 ^ 64 },
    ghost course: { ∥ CourseTo stage owed B.host listings B.unread B.before
        (unread_of R.remaining bus) (written_of W.contents bus) (kept_of bus) ∥₁ },
}

/// Each call is that of the bus below, and says what that one says.
impl<R: Read, W: Write, B: Begun> Bus for CourseBus<R, W, B> {
    ghost use Rattle.std.specs.Prelude.{◌≢◌, ◌≤◌, ◌*◌, length, Some, Err, IfErr, IfOk};
    ghost use Rattle.std.specs.Int.{div_ceil};
    ghost use Rattle.usb_bus.specs.Rows.{CountsRow, IsDestination, RowTold, row_attempts};
    ghost use Rattle.usb_bus.specs.Traces.{Spends};
    ghost use Rattle.usb_port.specs.Calls.{IsClearFeature, IsSetFeature, clear_call, set_call};
    ghost use Rattle.usb_stream.specs.Stream.{AttemptsByLine, Calls, InsByLine, OutsByLine, RefusesRow, Restarts, bus_fault, kept_status, no_world, streams};
    ghost use Rattle.usb_stream.specs.declared.fault.LiveFault.{LiveFault as AFault};
    ghost use Rattle.usb_world.specs.PlainAttempts.{attempt_data};
    ghost use Rattle.usb_world.specs.Worlds.{FitsMaximum, IsAttempt};

    ghost modelled = { false };

    ghost world = { λ bus. no_world };

    ghost trace = { λ bus. None };

    ghost spent = { λ bus. (kept_of bus.bus).attempts };

    ghost failed = { λ bus. option_map bus_fault (kept_of bus.bus).fault };

    ghost ports = { λ bus. (kept_of bus.bus).roots };

    fn attempt(&mut self, attempt: &Attempt) -> Result<Outcome, BusFault>
        requires { IsAttempt (attempt_data attempt.now) }
        ensures again { (f : AFault) → (kept_of self.old.bus).fault ≡ Some f
            → (result ≡ Err (bus_fault f)) × (self.new.bus ≡ self.old.bus) }
        ensures asks { (kept_of self.old.bus).fault ≡ None → AttemptsByLine attempt.now
            (streams (unread_of R.remaining self.old.bus) (unread_of R.remaining self.new.bus)
            (written_of W.contents self.old.bus) (written_of W.contents self.new.bus))
            (kept_of self.old.bus) result (kept_of self.new.bus) }
        ensures fits { IfOk result (FitsMaximum (attempt_data attempt.now).max) }
        ensures spends { Spends (λ bus. (kept_of bus.bus).attempts)
            (λ bus. (kept_of bus.bus).roots) 1 self.old self.new }
        ensures told { IfErr result (λ fault.
            option_map bus_fault (kept_of self.new.bus).fault ≡ Some fault) }
    {
        self.stage = Stage::Asks;
        self.bus.attempt(attempt)
    }

    fn attempt_ins(
        &mut self,
        to: Destination,
        toggle: Toggle,
        most: u8,
        got: &mut ArrayVec<u8, ROW_ROOM>,
    ) -> RowDone
        requires row { IsDestination to × (most ≤ 64) }
        ensures again { (f : AFault) → (kept_of self.old.bus).fault ≡ Some f
            → RefusesRow most f self.old.bus result self.new.bus }
        ensures asks { (kept_of self.old.bus).fault ≡ None → InsByLine to toggle most
            (streams (unread_of R.remaining self.old.bus) (unread_of R.remaining self.new.bus)
            (written_of W.contents self.old.bus) (written_of W.contents self.new.bus))
            (kept_of self.old.bus) result got.new.items (kept_of self.new.bus) }
        ensures spends { Spends (λ bus. (kept_of bus.bus).attempts)
            (λ bus. (kept_of bus.bus).roots) (row_attempts result.moved result.end)
            self.old self.new }
        ensures fits { CountsRow to.max most result
            × (length got.new.items ≡ result.moved * to.max) }
        ensures told { RowTold result.end (option_map bus_fault (kept_of self.new.bus).fault) }
    {
        self.stage = Stage::Asks;
        self.bus.attempt_ins(to, toggle, most, got)
    }

    fn attempt_outs(&mut self, to: Destination, toggle: Toggle, bytes: &[u8]) -> RowDone
        requires row { IsDestination to × (length bytes.now ≤ 64 * to.max) }
        ensures again { (f : AFault) → (kept_of self.old.bus).fault ≡ Some f
            → RefusesRow (length bytes.now) f self.old.bus result self.new.bus }
        ensures asks { (kept_of self.old.bus).fault ≡ None → OutsByLine to toggle bytes.now
            (streams (unread_of R.remaining self.old.bus) (unread_of R.remaining self.new.bus)
            (written_of W.contents self.old.bus) (written_of W.contents self.new.bus))
            (kept_of self.old.bus) result (kept_of self.new.bus) }
        ensures spends { Spends (λ bus. (kept_of bus.bus).attempts)
            (λ bus. (kept_of bus.bus).roots) (row_attempts result.moved result.end)
            self.old self.new }
        ensures fits { CountsRow to.max (div_ceil (length bytes.now) to.max) result }
        ensures told { RowTold result.end (option_map bus_fault (kept_of self.new.bus).fault) }
    {
        self.stage = Stage::Asks;
        self.bus.attempt_outs(to, toggle, bytes)
    }

    fn root_ports(&self) -> u8
        ensures ports { result ≡ (kept_of self.now.bus).roots }
        ensures least { 1 ≤ result }
        ensures most { result ≤ 7 }
    {
        self.bus.root_ports()
    }

    fn root_status(&self, port: u8) -> [u8; 4]
        requires least { 1 ≤ port }
        requires most { port ≤ (kept_of self.now.bus).roots }
        ensures { result ≡ kept_status (kept_of self.now.bus) port }
    {
        self.bus.root_status(port)
    }

    fn root_set(&mut self, port: u8, feature: u16)
        requires { IsSetFeature feature }
        ensures again { (kept_of self.old.bus).fault ≢ None → self.new.bus ≡ self.old.bus }
        ensures asks { (kept_of self.old.bus).fault ≡ None → Calls port (set_call feature)
            (streams (unread_of R.remaining self.old.bus) (unread_of R.remaining self.new.bus)
            (written_of W.contents self.old.bus) (written_of W.contents self.new.bus))
            (kept_of self.old.bus) (kept_of self.new.bus) }
        ensures unspent { Spends (λ bus. (kept_of bus.bus).attempts)
            (λ bus. (kept_of bus.bus).roots) 0 self.old self.new }
    {
        self.stage = Stage::Asks;
        self.bus.root_set(port, feature);
    }

    fn root_clear(&mut self, port: u8, feature: u16)
        requires { IsClearFeature feature }
        ensures again { (kept_of self.old.bus).fault ≢ None → self.new.bus ≡ self.old.bus }
        ensures asks { (kept_of self.old.bus).fault ≡ None → Calls port (clear_call feature)
            (streams (unread_of R.remaining self.old.bus) (unread_of R.remaining self.new.bus)
            (written_of W.contents self.old.bus) (written_of W.contents self.new.bus))
            (kept_of self.old.bus) (kept_of self.new.bus) }
        ensures unspent { Spends (λ bus. (kept_of bus.bus).attempts)
            (λ bus. (kept_of bus.bus).roots) 0 self.old self.new }
    {
        self.stage = Stage::Asks;
        self.bus.root_clear(port, feature);
    }

    fn restart_endpoint(&mut self, address: u8, number: u8, is_in: bool)
        requires address { address ≤ 127 }
        requires least { 1 ≤ number }
        requires most { number ≤ 15 }
        ensures again { (kept_of self.old.bus).fault ≢ None → self.new.bus ≡ self.old.bus }
        ensures asks { (kept_of self.old.bus).fault ≡ None → Restarts address number is_in
            (streams (unread_of R.remaining self.old.bus) (unread_of R.remaining self.new.bus)
            (written_of W.contents self.old.bus) (written_of W.contents self.new.bus))
            (kept_of self.old.bus) (kept_of self.new.bus) }
        ensures unspent { Spends (λ bus. (kept_of bus.bus).attempts)
            (λ bus. (kept_of bus.bus).roots) 0 self.old self.new }
    {
        self.stage = Stage::Asks;
        self.bus.restart_endpoint(address, number, is_in);
    }

    ghost counted = { λ known bus. Prim.cc known };

    ghost settled = { λ known bus. Prim.cc known };

    ghost between = { λ known bus working. Prim.cc known };
}

impl<R: Read, W: Write, B: Begun> CourseBus<R, W, B> {
    ghost use Rattle.usb_run.specs.{usual_options};
    ghost use Rattle.usb_live.specs.Course.{IsShown, Lives, settles, told_text};
    ghost use Rattle.usb_run.specs.ItemLines.{number_of};
    ghost use Rattle.std.specs.Prelude.{true};

    /// Says the hello.
    pub(crate) fn open(reader: Watched<R>, writer: Watched<W>, limit: u64, wide_hubs: bool) -> Self
        requires host { live_host wide_hubs limit ≡ B.host }
        requires unread { pipe_of R.remaining reader ≡ B.unread }
        requires before { out_pipe_of W.contents writer ≡ B.before }
    {
        CourseBus {
            bus: stream(reader, writer, limit, wide_hubs),
            stage: Stage::Asks,
            owed: Owed::Nothing,
            listings: 0,
            begun: PhantomData,
        }
    }

    /// Asks what is requested; if something is owed, that is nothing.
    ///
    /// # Errors
    ///
    /// The bus's fault.
    pub(crate) fn wait(&mut self) -> Result<Answer, LiveFault> {
        if !is_nothing(&self.owed) {
            return Ok(Answer::Done);
        }
        let answer = self.bus.wait();
        self.stage = stage_of(&answer);
        self.owed = owed_by(&answer);
        answer
    }

    /// Whether an item is the one that is owed.
    pub(crate) fn owes(&self, item: &Item) -> bool
        ensures { result ≡ settles self.now.owed item.now }
    {
        settles(&self.owed, item)
    }

    /// How many listings were reported once an item that is owed is.
    pub(crate) fn number(&self, item: &Item) -> u64
        requires { settles self.now.owed item.now ≡ true }
        ensures { result ≡ number_of item.now self.now.listings }
    {
        number_of(item, self.listings)
    }

    /// Reports an item that is owed, whose text is this.
    ///
    /// # Errors
    ///
    /// The bus's fault.
    pub(crate) fn tell(&mut self, item: &Item, text: &[u8]) -> Result<(), LiveFault>
        requires owed { settles self.old.owed item.now ≡ true }
        requires shown { IsShown (usual_options B.host.wide) item.now }
        requires text { text.now ≡ told_text (number_of item.now self.old.listings) item.now }
    {
        let number = self.number(item);
        let stage = stage_behind(self.stage, item);
        self.stage = Stage::Asks;
        let told = self.bus.tell(text);
        if told.is_ok() {
            self.stage = stage;
            self.owed = Owed::Nothing;
            self.listings = number;
        }
        told
    }

    /// How the course ended, and the reader and the writer.
    pub(crate) fn finish(
        self,
        ran: Result<(), LiveEnd>,
    ) -> (Result<(), LiveEnd>, Watched<R>, Watched<W>)
        ensures { ∥ Lives B.host B.unread (pipe_of R.remaining result.1) B.before
            (out_pipe_of W.contents result.2) result.0 ∥₁ }
    {
        let CourseBus { bus, stage, .. } = self;
        let ended = end_of(bus.fault(), bus.lines(), bus.left(), stage, ran);
        let (reader, writer) = bus.into_ends();
        (ended, reader, writer)
    }

    /// The bus below.
    pub(crate) fn bus(&self) -> &StreamBus<R, W> {
        &self.bus
    }
}

/// The bus of a host, which takes wide hubs or not.
fn stream<R: Read, W: Write>(
    reader: Watched<R>,
    writer: Watched<W>,
    limit: u64,
    wide_hubs: bool,
) -> StreamBus<R, W>
    ensures { SaysHello wide_hubs limit (streams (pipe_of R.remaining reader)
        (unread_of R.remaining result) (out_pipe_of W.contents writer)
        (written_of W.contents result)) (kept_of result) }
{
    if wide_hubs {
        StreamBus::with_wide_hubs(reader, writer, limit)
    } else {
        StreamBus::open(reader, writer, limit)
    }
}
