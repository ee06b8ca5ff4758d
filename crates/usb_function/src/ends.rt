//! The endpoints of a device besides endpoint 0, from the plug on: one row of those that take data,
//! and one of those that give them.
ghost use Rattle.std.specs.Prelude.{◌≡◌, ◌<◌, ◌≤◌, ◌+◌, ◌++◌, true, false, List, length, map, get_or, slice_set, [], None, option_copied, IfOk, OnErr};
ghost use Rattle.usb_descriptor.specs.Usable.{belongs_to};
ghost use Rattle.usb_device.specs.Bulk.{is_of_either};
ghost use Rattle.usb_device.specs.Ends.{begun_if, no_out, no_in, rested_in, with_at, given_on, hesitated, numbered_from, renewed, paced_on, pace_by, plugged_in_end};
ghost use Rattle.usb_device.specs.OutRows.{head_of, joined, plugged_head, rested_head, taken_head};

use crate::bulk::{RESTED, counted_down, is_last, turned};
use std::alloc::{AllocError, Global};
use std::marker::Model;
use usb_descriptor::{UsableEndpoint, UsableEndpoints};
use usb_device::{EndpointNumber, EndpointSpec, EndpointState, InEnd, OutHead, Pace};
use usb_request::endpoint_address::DIRECTION_IN;
use usb_scene::DeviceSpec;

/// How many endpoints a direction has room for, endpoint 0 included (9.6.6).
const ENDPOINTS: usize = 16;

/// An endpoint that gives no NAK and never halts by itself.
const STEADY: Pace = Pace {
    naks: 0,
    each: 0,
    until_halt: None,
};

/// After one of its NAKs.
fn hesitated(pace: Pace) -> Pace
    ensures { result ≡ hesitated pace }
{
    Pace {
        naks: pace.naks.saturating_sub(1),
        ..pace
    }
}

/// At a beginning: all its NAKs come before the next packet.
fn renewed(pace: Pace) -> Pace
    ensures { result ≡ renewed pace }
{
    Pace {
        naks: pace.each,
        ..pace
    }
}

/// After a packet that moved.
fn paced_on(pace: Pace) -> Pace
    ensures { result ≡ paced_on pace }
{
    Pace {
        naks: pace.each,
        each: pace.each,
        until_halt: counted_down(pace.until_halt),
    }
}

/// As a plan describes it; `halt_after` is for an endpoint without a row.
fn pace_by(row: Option<&EndpointSpec>, halt_after: Option<u16>) -> Pace
    ensures { result ≡ pace_by (option_copied row.entry) halt_after }
{
    match row {
        None => Pace {
            naks: 0,
            each: 0,
            until_halt: halt_after,
        },
        Some(row) => Pace {
            naks: row.naks,
            each: row.naks,
            until_halt: row.halt_after,
        },
    }
}

/// The endpoint after the host's ACK of a packet, with this place behind it.
pub(crate) fn given_on(place: u16, end: InEnd) -> InEnd
    ensures { result ≡ given_on place end }
{
    InEnd {
        state: EndpointState {
            toggle: turned(end.state).toggle,
            halted: is_last(end.pace.until_halt),
        },
        pace: paced_on(end.pace),
        place,
    }
}

/// The endpoint as it is at the plug.
fn plugged_in_end(spec: &DeviceSpec, number: u8) -> InEnd
    requires { number < 16 }
    ensures { result ≡ plugged_in_end spec.now number }
{
    InEnd {
        state: RESTED,
        pace: pace_by(spec.endpoints().row(DIRECTION_IN + number), None),
        place: 0,
    }
}

/// An IN endpoint that has given nothing, and of which a plan says nothing.
const PLAIN_IN: InEnd = InEnd {
    state: RESTED,
    pace: STEADY,
    place: 0,
};

/// An OUT endpoint of which a plan says nothing, at the plug.
const PLAIN_OUT: OutHead = OutHead {
    state: RESTED,
    pace: STEADY,
};

/// As it is at the plug.
fn plugged_head(spec: &DeviceSpec, number: u8) -> OutHead
    ensures { result ≡ plugged_head spec.now number }
{
    OutHead {
        state: RESTED,
        pace: pace_by(spec.endpoints().row(number), spec.halt_after()),
    }
}

/// It begins again.
fn rested_head(head: OutHead) -> OutHead
    ensures { result ≡ rested_head head }
{
    OutHead {
        state: RESTED,
        pace: renewed(head.pace),
    }
}

/// After a packet that joined what it has taken; its plan may say that it halts.
fn taken_head(halts: bool, head: OutHead) -> OutHead
    ensures { result ≡ taken_head halts head }
{
    OutHead {
        state: EndpointState {
            toggle: turned(head.state).toggle,
            halted: halts && is_last(head.pace.until_halt),
        },
        pace: paced_on(head.pace),
    }
}

/// What an OUT endpoint has taken since the plug.
#[derive(Debug, Drop)]
pub(crate) struct Sink {
    bytes: Vec<u8>,
}

impl Model for Sink {
    ghost use Rattle.std.specs.Prelude.{List, ℕ};

    ghost Value = { List ℕ };

    ghost view = { λ s. s.bytes.items };
}

impl Sink {
    /// It has taken nothing.
    fn new(alloc: Global) -> Self
        ensures { result ≡ [] }
    {
        Sink {
            bytes: Vec::new(alloc),
        }
    }

    fn as_slice(&self) -> &[u8]
        ensures { result.now ≡ self.now }
    {
        self.bytes.as_slice()
    }

    fn take(&mut self, bytes: &[u8]) -> Result<(), AllocError>
        ensures taken { IfOk result (λ done. self.new ≡ self.old ++ bytes.now) }
        ensures refused { OnErr result (self.new ≡ self.old) }
    {
        self.bytes.extend_from_slice(bytes)?;
        Ok(())
    }
}

/// What the endpoint at a place has taken.
fn sink_at(sinks: &[Sink], place: usize) -> &[u8]
    ensures { result.now ≡ get_or sinks.now place [] }
{
    match sinks.get(place) {
        Some(sink) => sink.as_slice(),
        None => &[],
    }
}

/// There is a sink at a place from here on. Which bytes were taken stays.
fn make_room(sinks: &mut Vec<Sink>, place: usize) -> Result<(), AllocError>
    ensures same { (heads : List OutHead)
        → joined heads sinks.new.items ≡ joined heads sinks.old.items }
    ensures there { IfOk result (λ done. place < length sinks.new.items) }
{
    'room: while sinks.len() <= place {
        let sink = Sink::new(*sinks.allocator());
        sinks.push(sink)?;
    }
    Ok(())
}

/// Bytes join those of the sink at a place.
fn grow(sinks: &mut [Sink], place: usize, bytes: &[u8]) -> Result<(), AllocError>
    requires { place < length sinks.old }
    ensures taken { IfOk result (λ done. sinks.new
        ≡ slice_set sinks.old place (get_or sinks.old place [] ++ bytes.now)) }
    ensures refused { OnErr result (sinks.new ≡ sinks.old) }
{
    sinks[place].take(bytes)
}

/// Whether an interface has an endpoint before or after it takes a setting.
fn is_of_either(
    interface: u8,
    before: &UsableEndpoints,
    after: &UsableEndpoints,
    number: u8,
    is_in: bool,
) -> bool
    ensures { result ≡ is_of_either interface before.now after.now is_in number }
{
    belongs_to(interface, before.get(number, is_in))
        || belongs_to(interface, after.get(number, is_in))
}

/// Whether an endpoint belongs to this interface.
fn belongs_to(interface: u8, end: Option<UsableEndpoint>) -> bool
    ensures { result ≡ belongs_to interface end }
{
    match end {
        None => false,
        Some(end) => end.interface == interface,
    }
}

#[cycle(rest_ins)]
fn rest_ins(row: &mut [InEnd])
    ensures { row.new ≡ map rested_in row.old }
{
    if let Some((end, more)) = row.split_first_mut() {
        end.state = RESTED;
        end.pace = renewed(end.pace);
        rest_ins(more);
    }
}

#[cycle(rest_outs)]
fn rest_outs(row: &mut [OutHead])
    ensures { row.new ≡ map rested_head row.old }
{
    if let Some((head, more)) = row.split_first_mut() {
        *head = rested_head(*head);
        rest_outs(more);
    }
}

/// Each endpoint is as it is at the plug; the first has this number.
#[cycle(plug_ins)]
#[tactic(auto, unfolding(usb_device::specs::Ends::numbered_from))]
fn plug_ins(row: &mut [InEnd], number: u8, spec: &DeviceSpec)
    requires { number + length row.old ≤ 16 }
    ensures { row.new ≡ numbered_from (λ e end. plugged_in_end spec.now e) number row.old }
{
    if let Some((end, more)) = row.split_first_mut() {
        *end = plugged_in_end(spec, number);
        plug_ins(more, number + 1, spec);
    }
}

#[cycle(plug_outs)]
#[tactic(auto, unfolding(usb_device::specs::Ends::numbered_from))]
fn plug_outs(row: &mut [OutHead], number: u8, spec: &DeviceSpec)
    requires { number + length row.old ≤ 16 }
    ensures { row.new ≡ numbered_from (λ e head. plugged_head spec.now e) number row.old }
{
    if let Some((head, more)) = row.split_first_mut() {
        *head = plugged_head(spec, number);
        plug_outs(more, number + 1, spec);
    }
}

/// Each endpoint that an interface has before or after it takes a setting begins again; the first
/// has this number.
#[cycle(begin_ins)]
#[tactic(auto, unfolding(usb_device::specs::Ends::numbered_from))]
fn begin_ins(
    row: &mut [InEnd],
    number: u8,
    interface: u8,
    before: &UsableEndpoints,
    after: &UsableEndpoints,
)
    requires { number + length row.old ≤ 16 }
    ensures { row.new ≡ numbered_from (λ e. begun_if
        (is_of_either interface before.now after.now true e) rested_in) number row.old }
{
    if let Some((end, more)) = row.split_first_mut() {
        if is_of_either(interface, before, after, number, true) {
            end.state = RESTED;
            end.pace = renewed(end.pace);
        }
        begin_ins(more, number + 1, interface, before, after);
    }
}

#[cycle(begin_outs)]
#[tactic(auto, unfolding(usb_device::specs::Ends::numbered_from))]
fn begin_outs(
    row: &mut [OutHead],
    number: u8,
    interface: u8,
    before: &UsableEndpoints,
    after: &UsableEndpoints,
)
    requires { number + length row.old ≤ 16 }
    ensures { row.new ≡ numbered_from (λ e. begun_if
        (is_of_either interface before.now after.now false e) rested_head) number row.old }
{
    if let Some((head, more)) = row.split_first_mut() {
        if is_of_either(interface, before, after, number, false) {
            *head = rested_head(*head);
        }
        begin_outs(more, number + 1, interface, before, after);
    }
}

/// The IN endpoints, by their numbers.
#[derive(Debug, Drop)]
pub(crate) struct InEnds {
    row: [InEnd; 16],
    /// Whether one may be other than a configuration leaves it.
    moved: bool,
}

impl Model for InEnds {
    ghost use Rattle.std.specs.Prelude.{◌≡◌, List, false, length, map};
    ghost use Rattle.usb_device.specs.Ends.{rested_in};
    ghost use Rattle.usb_device.specs.declared.ends.InEnd.{InEnd};

    ghost Value = { List InEnd };

    ghost view = { λ e. e.row };

    ghost invariant = { λ e. (length e.row ≡ 16)
        × (e.moved ≡ false → map rested_in e.row ≡ e.row) };
}

impl InEnds {
    ghost use Rattle.usb_device.specs.Ends.{end_numbers};

    /// Those of a device that was just plugged.
    pub fn new(spec: &DeviceSpec) -> Self
        ensures { result ≡ map (plugged_in_end spec.now) end_numbers }
    {
        let mut ends = InEnds {
            row: [PLAIN_IN; ENDPOINTS],
            moved: false,
        };
        if !spec.endpoints().as_slice().is_empty() {
            ends.moved = true;
            plug_ins(&mut ends.row, 0, spec);
        }
        ends
    }

    /// The one with a number.
    pub fn get(&self, number: EndpointNumber) -> InEnd
        ensures { result ≡ get_or self.now number no_in }
    {
        self.row[number.place()]
    }

    /// The one with a number gave a NAK.
    pub fn hesitate(&mut self, number: EndpointNumber)
        ensures { self.new ≡ with_at no_in number
            (record (get_or self.old number no_in)
            { pace = hesitated (get_or self.old number no_in).pace }) self.old }
    {
        let end = self.get(number);
        self.set(
            number,
            InEnd {
                pace: hesitated(end.pace),
                ..end
            },
        );
    }

    /// The one with a number begins again.
    pub fn begin_again(&mut self, number: EndpointNumber)
        ensures { self.new
            ≡ with_at no_in number (rested_in (get_or self.old number no_in)) self.old }
    {
        let end = self.get(number);
        self.set(
            number,
            InEnd {
                state: RESTED,
                pace: renewed(end.pace),
                ..end
            },
        );
    }

    /// Another one takes its place.
    pub fn set(&mut self, number: EndpointNumber, end: InEnd)
        ensures { self.new ≡ with_at no_in number end self.old }
    {
        self.moved = true;
        self.row[number.place()] = end;
    }

    /// An interface takes a setting: each endpoint that it has before or after begins again
    /// (9.1.1.5).
    pub fn begin_setting(
        &mut self,
        interface: u8,
        before: &UsableEndpoints,
        after: &UsableEndpoints,
    )
        ensures { self.new ≡ numbered_from (λ e. begun_if
            (is_of_either interface before.now after.now true e) rested_in) 0 self.old }
    {
        self.moved = true;
        begin_ins(&mut self.row, 0, interface, before, after);
    }

    /// A configuration is taken (9.4.7): what they gave stays.
    pub fn rest(&mut self)
        ensures { self.new ≡ map rested_in self.old }
    {
        if self.moved {
            rest_ins(&mut self.row);
            self.moved = false;
        }
    }
}

/// The OUT endpoints, by their numbers.
#[derive(Debug, Drop)]
pub(crate) struct OutEnds {
    heads: [OutHead; 16],
    /// Whether one may be other than a configuration leaves it.
    moved: bool,
    /// What they have taken since the plug; one beyond these has taken nothing.
    sinks: Vec<Sink>,
}

impl Model for OutEnds {
    ghost use Rattle.std.specs.Prelude.{◌≡◌, List, false, length, map};
    ghost use Rattle.usb_device.specs.Ends.{OutEnd as AnOut};
    ghost use Rattle.usb_device.specs.OutRows.{joined, rested_head};

    ghost Value = { List AnOut };

    ghost view = { λ e. joined e.heads e.sinks.items };

    ghost invariant = { λ e. (length e.heads ≡ 16)
        × (e.moved ≡ false → map rested_head e.heads ≡ e.heads) };
}

impl OutEnds {
    ghost use Rattle.usb_device.specs.Ends.{end_numbers, plugged_out, rested_out, taken_on};
    ghost use Rattle.usb_device.specs.OutRows.{with_sink};

    /// Those of a device that was just plugged.
    pub fn new(alloc: Global, spec: &DeviceSpec) -> Self
        ensures { result ≡ map (plugged_out spec.now) end_numbers }
    {
        let mut ends = OutEnds {
            heads: [PLAIN_OUT; ENDPOINTS],
            moved: false,
            sinks: Vec::new(alloc),
        };
        if !spec.endpoints().as_slice().is_empty() || spec.halt_after().is_some() {
            ends.moved = true;
            plug_outs(&mut ends.heads, 0, spec);
        }
        ends
    }

    /// The one with a number, but for what it has taken.
    fn head(&self, number: EndpointNumber) -> OutHead
        ensures { result ≡ head_of (get_or self.now number no_out) }
    {
        self.heads[number.place()]
    }

    /// The one with a number is so, and has taken what it had.
    fn set_head(&mut self, number: EndpointNumber, head: OutHead)
        ensures { self.new
            ≡ with_at no_out number (with_sink head (get_or self.old number no_out).sink) self.old }
    {
        self.moved = true;
        self.heads[number.place()] = head;
    }

    /// The state of the one with a number.
    pub fn state(&self, number: EndpointNumber) -> EndpointState
        ensures { result ≡ (get_or self.now number no_out).state }
    {
        self.head(number).state
    }

    /// What the one with a number has taken since the plug.
    pub fn sink(&self, number: EndpointNumber) -> &[u8]
        ensures { result.now ≡ (get_or self.now number no_out).sink }
    {
        sink_at(self.sinks.as_slice(), number.place())
    }

    /// Another state of the one with a number.
    pub fn set_state(&mut self, number: EndpointNumber, state: EndpointState)
        ensures { self.new
            ≡ with_at no_out number (record (get_or self.old number no_out) { state = state })
            self.old }
    {
        let head = self.head(number);
        self.set_head(number, OutHead { state, ..head });
    }

    /// How the one with a number hesitates, and when it halts.
    pub fn pace(&self, number: EndpointNumber) -> Pace
        ensures { result ≡ (get_or self.now number no_out).pace }
    {
        self.head(number).pace
    }

    /// The one with a number gave a NAK.
    pub fn hesitate(&mut self, number: EndpointNumber)
        ensures { self.new ≡ with_at no_out number
            (record (get_or self.old number no_out)
            { pace = hesitated (get_or self.old number no_out).pace }) self.old }
    {
        let head = self.head(number);
        self.set_head(
            number,
            OutHead {
                pace: hesitated(head.pace),
                ..head
            },
        );
    }

    /// The one with a number begins again.
    pub fn begin_again(&mut self, number: EndpointNumber)
        ensures { self.new
            ≡ with_at no_out number (rested_out (get_or self.old number no_out)) self.old }
    {
        let head = rested_head(self.head(number));
        self.set_head(number, head);
    }

    /// A packet joins what the one with a number has taken; its plan may say that it halts.
    ///
    /// # Errors
    ///
    /// Memory was refused, and nothing changes.
    pub fn take(
        &mut self,
        number: EndpointNumber,
        halts: bool,
        bytes: &[u8],
    ) -> Result<(), AllocError>
        ensures taken { IfOk result (λ done. self.new ≡ with_at no_out number
            (taken_on halts bytes.now (get_or self.old number no_out)) self.old) }
        ensures refused { OnErr result (self.new ≡ self.old) }
    {
        let place = number.place();
        make_room(&mut self.sinks, place)?;
        grow(self.sinks.as_mut_slice(), place, bytes)?;
        let head = taken_head(halts, self.heads[place]);
        self.moved = true;
        self.heads[place] = head;
        Ok(())
    }

    /// An interface takes a setting: each endpoint that it has before or after begins again
    /// (9.1.1.5).
    pub fn begin_setting(
        &mut self,
        interface: u8,
        before: &UsableEndpoints,
        after: &UsableEndpoints,
    )
        ensures { self.new ≡ numbered_from (λ e. begun_if
            (is_of_either interface before.now after.now false e) rested_out) 0 self.old }
    {
        self.moved = true;
        begin_outs(&mut self.heads, 0, interface, before, after);
    }

    /// A configuration is taken (9.4.7): what they took stays.
    pub fn rest(&mut self)
        ensures { self.new ≡ map rested_out self.old }
    {
        if self.moved {
            rest_outs(&mut self.heads);
            self.moved = false;
        }
    }
}
