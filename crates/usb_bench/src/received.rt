//! The data that a host reports to have received.
ghost use Rattle.std.specs.Prelude.{◌≡◌, List, ℕ, filter, map, not, option_map, IfErr, IfOk, OnOk};
ghost use Rattle.std.specs.List.{find};
ghost use Rattle.std.specs.Option.{option_copied};
ghost use Rattle.usb_sim.specs.Sim.{world_of};
ghost use Rattle.usb_far.specs.FarEnd.{played_of};
ghost use Rattle.usb_bench.specs.Received.{AfterData, AfterDigits, AfterReport, gives_source, KeepsWindow, Kept, ReadsReport, ReportLine, begun_anew, cleared_at, is_at, path_in, received_at, report_in, report_view, source_at, widened, window_at};
ghost use Rattle.usb_bench.specs.Said.{IsUnsaid};
ghost use Rattle.usb_bench.specs.declared.fault.BenchFault.TheVariants.{Memory};

use crate::fault::BenchFault;
use crate::judge::Judge;
use crate::said::put;
use std::alloc::Global;
use std::str;
use usb_far::FarEnd;
use usb_judge::{Window, data_line};
use usb_port::PortPath;
use usb_request::request_code::{SET_ADDRESS, SET_CONFIGURATION, SET_INTERFACE};
use usb_sim::{SimBus, Trace};
use usb_verdict::{ListingFault, cut_space, read_bytes};
use usb_world::Attempt;

/// The most digits of a line that are read: of a line only the first 1,024 bytes are.
const MOST_DIGITS: usize = 1000;

/// Where the data go on of the device at a port.
#[derive(Debug, Drop)]
pub(crate) struct Receipt {
    path: PortPath,
    window: Window,
}

/// Any place of a source.
const ANYWHERE: Window = Window {
    least: 0,
    most: usize::MAX,
};

/// What a line reports of the first bulk IN endpoint of the device at a port.
#[derive(Drop)]
enum Report<'a> {
    /// These bytes came, in hexadecimal digits.
    Data(PortPath, &'a str),
    /// Some may have come that are not reported.
    Lost(PortPath),
    /// Its halt was cleared.
    Cleared(PortPath),
}

impl Judge {
    /// Takes a line that stands alone. If it reports data that the device did not give, the trace
    /// gets a line.
    ///
    /// # Errors
    ///
    /// - `Memory`: memory was refused.
    /// - `Far`: the trace failed, or the bus before.
    pub(crate) fn take_report<T: Trace>(
        &mut self,
        alloc: Global,
        far: &mut FarEnd<T>,
        line: &[u8],
    ) -> Result<(), BenchFault>
        ensures taken { OnOk result (ReportLine line.now self.old (played_of far.old) self.new
            (played_of far.new)) }
        ensures fault { IfErr result (IsUnsaid (played_of far.new)) }
    {
        match report_in(line) {
            None => Ok(()),
            Some(report) => {
                let receipts = self.receipts.as_slice();
                let (path, after) = window_after(alloc, far.bus(), receipts, report)?;
                self.keep(alloc, far, path, after)
            }
        }
    }

    /// Keeps the window after a report of the device at a port. None is kept as any place, and the
    /// trace gets a line.
    fn keep<T: Trace>(
        &mut self,
        alloc: Global,
        far: &mut FarEnd<T>,
        path: PortPath,
        after: Option<Window>,
    ) -> Result<(), BenchFault>
        ensures kept { OnOk result (Kept path self.old (played_of far.old) after self.new
            (played_of far.new)) }
        ensures fault { IfErr result (IsUnsaid (played_of far.new)) }
    {
        match after {
            Some(window) => self.keep_window(path, window),
            None => {
                let line = data_line(alloc, far.bus().attempts(), &path)?;
                put(far, line.as_slice())?;
                self.faults = self.faults.saturating_add(1);
                self.keep_window(path, ANYWHERE)
            }
        }
    }

    /// Keeps a window of the device at a port, in the place of the one before.
    fn keep_window(&mut self, path: PortPath, window: Window) -> Result<(), BenchFault>
        ensures kept { OnOk result (KeepsWindow path window self.old self.new) }
        ensures faults { OnOk result (self.new.faults ≡ self.old.faults) }
        ensures fault { IfErr result (λ fault. fault ≡ Memory) }
    {
        forget(&mut self.receipts, &path);
        match self.receipts.push(Receipt { path, window }) {
            Ok(()) => Ok(()),
            Err(_) => Err(BenchFault::Memory),
        }
    }
}

/// The port of a report, and the window after it; None if the data are not those of the device.
fn window_after<T: Trace>(
    alloc: Global,
    bus: &SimBus<T>,
    receipts: &[Receipt],
    report: Report<'_>,
) -> Result<(PortPath, Option<Window>), BenchFault>
    ensures path { IfOk result (λ after. after.0 ≡ path_in (report_view report.entry)) }
    ensures after { IfOk result (λ after. AfterReport (world_of bus.now) receipts.now
        (report_view report.entry) after.1) }
    ensures fault { IfErr result (λ fault. fault ≡ Memory) }
{
    match report {
        Report::Data(path, digits) => {
            let after = after_data(alloc, bus, receipts, &path, digits)?;
            Ok((path, after))
        }
        Report::Lost(path) => {
            let window = window_at(receipts, &path).after_loss(source_at(bus, &path));
            Ok((path, Some(window)))
        }
        Report::Cleared(path) => {
            let window = window_at(receipts, &path).after_clear();
            Ok((path, Some(window)))
        }
    }
}

/// The window after data of the device at a port; None if they are not its data. Those of a device of
/// which the plan says what its endpoints give are not judged.
fn after_data<T: Trace>(
    alloc: Global,
    bus: &SimBus<T>,
    receipts: &[Receipt],
    path: &PortPath,
    digits: &str,
) -> Result<Option<Window>, BenchFault>
    ensures after { IfOk result (AfterData (gives_source (world_of bus.now) path.now)
        (source_at (world_of bus.now) path.now) digits.now (window_at receipts.now path.now)) }
    ensures fault { IfErr result (λ fault. fault ≡ Memory) }
{
    if gives_source(bus, path) {
        after_digits(alloc, bus, receipts, path, digits)
    } else {
        Ok(Some(ANYWHERE))
    }
}

/// Whether no row of the plan says what the endpoints give of the device at a port.
fn gives_source<T: Trace>(bus: &SimBus<T>, path: &PortPath) -> bool
    ensures { result ≡ gives_source (world_of bus.now) path.now }
{
    match bus.roots().device_at(path.numbers()) {
        Some(device) => device.spec().endpoints().as_slice().is_empty(),
        None => true,
    }
}

/// The window after data of the device at a port; None if they are not its data.
fn after_digits<T: Trace>(
    alloc: Global,
    bus: &SimBus<T>,
    receipts: &[Receipt],
    path: &PortPath,
    digits: &str,
) -> Result<Option<Window>, BenchFault>
    ensures after { IfOk result (AfterDigits (source_at (world_of bus.now) path.now) digits.now
        (window_at receipts.now path.now)) }
    ensures fault { IfErr result (λ fault. fault ≡ Memory) }
{
    let window = window_at(receipts, path);
    match read_bytes(alloc, digits) {
        Ok(bytes) => Ok(window.after_data(source_at(bus, path), bytes.as_slice())),
        Err(ListingFault::Memory) => Err(BenchFault::Memory),
        Err(_) => Ok(None),
    }
}

/// Where the data go on of the device at a port: at its source's beginning if nothing was reported
/// of it.
fn window_at(receipts: &[Receipt], path: &PortPath) -> Window
    ensures { result ≡ window_at receipts.now path.now }
{
    match receipt_at(receipts, path) {
        Some(receipt) => receipt.window,
        None => Window::at_plug(),
    }
}

/// The first receipt of the device at a port.
fn receipt_at<'a>(receipts: &'a [Receipt], path: &PortPath) -> Option<&'a Receipt>
    ensures { option_copied result ≡ find (is_at path.now) receipts.now }
{
    receipts.iter().find(|receipt| receipt.path == *path)
}

/// Drops what is kept of the device at a port.
fn forget(receipts: &mut Vec<Receipt>, path: &PortPath)
    ensures { receipts.new.items ≡ filter (λ r. not (is_at path.now r)) receipts.old.items }
{
    receipts.retain(|receipt| receipt.path != *path);
}

/// What the first bulk IN endpoint gives of the device at a port; nothing if none is plugged there.
fn source_at<'a, T: Trace>(bus: &'a SimBus<T>, path: &PortPath) -> &'a [u8]
    ensures { result.now ≡ source_at (world_of bus.now) path.now }
{
    match bus.roots().device_at(path.numbers()) {
        Some(device) => device.spec().source(),
        None => &[],
    }
}

/// What an attempt says of where data go on. A device that gets its address may be a new one at its
/// port. Toggles begin anew where a device is configured, or its interface is set (9.4.7, 9.4.10).
pub(crate) fn begin_anew(receipts: &mut [Receipt], attempt: &Attempt)
    ensures { receipts.new ≡ begun_anew attempt.now receipts.old }
{
    if let Attempt::Setup { bytes, .. } = attempt {
        match bytes[1] {
            SET_ADDRESS => widen(receipts, false),
            SET_CONFIGURATION | SET_INTERFACE => widen(receipts, true),
            _ => {}
        }
    }
}

/// Widens each window: by the last packet, or to any place.
fn widen(receipts: &mut [Receipt], is_same: bool)
    ensures { receipts.new ≡ map (widened is_same) receipts.old }
{
    if let Some((first, rest)) = receipts.split_first_mut() {
        first.window = if is_same {
            first.window.after_clear()
        } else {
            ANYWHERE
        };
        widen(rest, is_same);
    }
}

/// What a line reports of the first bulk IN endpoint of a device; None if it does not.
fn report_in(line: &[u8]) -> Option<Report<'_>>
    ensures { ReadsReport line.now (option_map report_view result) }
{
    match str::from_utf8(line) {
        Ok(text) => report_of(text),
        Err(_) => None,
    }
}

/// The same of a text.
#[tactic(auto, unfolding(crate::specs::Received::report_in))]
fn report_of(text: &str) -> Option<Report<'_>>
    ensures { option_map report_view result ≡ report_in text.now }
{
    let (word, behind) = cut_space(text)?;
    let (path, outcome) = cut_space(behind)?;
    let path = PortPath::from_text(path)?;
    match word {
        "receive" => Some(received_at(path, outcome)),
        "clear" => cleared_at(path, outcome),
        _ => None,
    }
}

/// `done HEX`; or else data that are not reported, or that are those of an endpoint that is named, or
/// too many for a line.
fn received_at(path: PortPath, outcome: &str) -> Report<'_>
    ensures { report_view result ≡ received_at path outcome.now }
{
    match cut_space(outcome) {
        Some(("done", digits)) if digits.len() <= MOST_DIGITS => Report::Data(path, digits),
        _ => Report::Lost(path),
    }
}

/// `done`, or `EP done`.
fn cleared_at(path: PortPath, outcome: &str) -> Option<Report<'_>>
    ensures { option_map report_view result ≡ cleared_at path outcome.now }
{
    if outcome.as_bytes().ends_with(b"done") {
        Some(Report::Cleared(path))
    } else {
        None
    }
}
