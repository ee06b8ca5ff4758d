//! The pipes of one direction of a function, and marks of those that are lost.
ghost use Rattle.std.specs.Prelude.{◌≡◌, ◌+◌, ◌≤◌, length, get_or, Some, None};
ghost use Rattle.usb_descriptor.specs.Usable.{end_at};
ghost use Rattle.usb_device.specs.Ends.{end_numbers, numbered_from, with_at};
ghost use Rattle.usb_table.specs.InterfaceSettings.{cleared_row, mark_of, marked_row, replaced_if, replaced_row};
ghost use Rattle.usb_table.specs.TablePipes.{has_no_end, new_pipe, none_lost, row_of_ends};
ghost use Rattle.usb_transfer.specs.Transactions.{IsTarget};

use std::marker::Model;
use usb_descriptor::{ConfigView, EndpointKind, UsableEndpoints};
use usb_transfer::{EndpointPipe, Target};

/// How many endpoints a direction has room for, endpoint 0 included (9.6.6).
pub(crate) const ENDPOINTS: u8 = 16;

/// The pipes of one direction, by the numbers of their endpoints.
#[derive(Clone, Copy, Debug)]
pub(crate) struct PipeRow {
    row: [Option<EndpointPipe>; 16],
}

impl Model for PipeRow {
    ghost use Rattle.std.specs.Prelude.{◌≡◌, List, Option, length};
    ghost use Rattle.usb_transfer.specs.EndpointPipes.{PipeState};

    ghost Value = { List (Option PipeState) };

    ghost view = { λ r. r.row };

    ghost invariant = { λ r. length r.row ≡ 16 };

    ghost inverse = { λ row. record { row = row } };
}

/// A new pipe to the endpoint with a number, if there is one.
fn new_pipe(target: Target, ends: &UsableEndpoints, number: u8, is_in: bool) -> Option<EndpointPipe>
    requires { IsTarget target }
    ensures { result ≡ new_pipe target is_in number (end_at ends.now is_in number) }
{
    let end = ends.get(number, is_in)?;
    Some(EndpointPipe::new(target, number, end, is_in))
}

/// Whether a direction of a device has no endpoint: most often one has none, and then no pipe has
/// to be made.
fn has_no_end(ends: &UsableEndpoints, is_in: bool) -> bool
    ensures { result ≡ has_no_end (end_at ends.now is_in) end_numbers }
{
    ends.get(0, is_in).is_none()
        && ends.get(1, is_in).is_none()
        && ends.get(2, is_in).is_none()
        && ends.get(3, is_in).is_none()
        && ends.get(4, is_in).is_none()
        && ends.get(5, is_in).is_none()
        && ends.get(6, is_in).is_none()
        && ends.get(7, is_in).is_none()
        && ends.get(8, is_in).is_none()
        && ends.get(9, is_in).is_none()
        && ends.get(10, is_in).is_none()
        && ends.get(11, is_in).is_none()
        && ends.get(12, is_in).is_none()
        && ends.get(13, is_in).is_none()
        && ends.get(14, is_in).is_none()
        && ends.get(15, is_in).is_none()
}

impl PipeRow {
    /// New pipes to the endpoints of one direction of a device.
    pub fn new(target: Target, ends: &UsableEndpoints, is_in: bool) -> Self
        requires { IsTarget target }
        ensures { result ≡ row_of_ends target is_in (end_at ends.now is_in) }
    {
        if has_no_end(ends, is_in) {
            return PipeRow { row: [None; 16] };
        }
        PipeRow {
            row: [
                new_pipe(target, ends, 0, is_in),
                new_pipe(target, ends, 1, is_in),
                new_pipe(target, ends, 2, is_in),
                new_pipe(target, ends, 3, is_in),
                new_pipe(target, ends, 4, is_in),
                new_pipe(target, ends, 5, is_in),
                new_pipe(target, ends, 6, is_in),
                new_pipe(target, ends, 7, is_in),
                new_pipe(target, ends, 8, is_in),
                new_pipe(target, ends, 9, is_in),
                new_pipe(target, ends, 10, is_in),
                new_pipe(target, ends, 11, is_in),
                new_pipe(target, ends, 12, is_in),
                new_pipe(target, ends, 13, is_in),
                new_pipe(target, ends, 14, is_in),
                new_pipe(target, ends, 15, is_in),
            ],
        }
    }

    /// The pipe to the endpoint with a number, if there is one.
    pub fn get(&self, number: u8) -> Option<EndpointPipe>
        ensures { result ≡ get_or self.now number None }
    {
        if number < ENDPOINTS {
            self.row[usize::from(number)]
        } else {
            None
        }
    }

    /// Where an interface has an endpoint in some setting, what another row has takes its place.
    pub fn replace(&mut self, new: &PipeRow, text: &ConfigView<'_>, interface: u8, is_in: bool)
        ensures value { self.new ≡ replaced_row text.now interface is_in
            (λ e had. get_or new.now e None) self.old }
        ensures whole { length self.new ≡ 16 }
    {
        replace_from(&mut self.row, 0, new, text, interface, is_in);
    }

    /// Where an interface has an endpoint in some setting, there is no pipe from here on.
    pub fn clear(&mut self, text: &ConfigView<'_>, interface: u8, is_in: bool)
        ensures value { self.new ≡ cleared_row text.now interface is_in self.old }
        ensures whole { length self.new ≡ 16 }
    {
        clear_from(&mut self.row, 0, text, interface, is_in);
    }

    /// Puts a pipe at the number of its endpoint.
    pub fn put(&mut self, pipe: EndpointPipe)
        ensures { self.new ≡ with_at None pipe.ep (Some pipe) self.old }
    {
        self.row[usize::from(pipe.number())] = Some(pipe);
    }
}

/// The kinds of the pipes of one direction that are lost, by the numbers of their endpoints: the
/// setting of their interface is not known.
#[derive(Clone, Copy, Debug)]
pub(crate) struct LostRow {
    row: [Option<EndpointKind>; 16],
}

impl Model for LostRow {
    ghost use Rattle.std.specs.Prelude.{◌≡◌, List, Option, length};
    ghost use Rattle.usb_descriptor.specs.declared.usable.EndpointKind.{EndpointKind};

    ghost Value = { List (Option EndpointKind) };

    ghost view = { λ r. r.row };

    ghost invariant = { λ r. length r.row ≡ 16 };

    ghost inverse = { λ row. record { row = row } };
}

impl LostRow {
    /// None is lost.
    pub fn none() -> Self
        ensures { result ≡ none_lost }
    {
        LostRow { row: [None; 16] }
    }

    /// The kind of the pipe that was lost at a number.
    pub fn get(&self, number: u8) -> Option<EndpointKind>
        ensures { result ≡ get_or self.now number None }
    {
        if number < ENDPOINTS {
            self.row[usize::from(number)]
        } else {
            None
        }
    }

    /// Where an interface has an endpoint in some setting, none is lost from here on.
    pub fn clear(&mut self, text: &ConfigView<'_>, interface: u8, is_in: bool)
        ensures value { self.new ≡ cleared_row text.now interface is_in self.old }
        ensures whole { length self.new ≡ 16 }
    {
        unmark_from(&mut self.row, 0, text, interface, is_in);
    }

    /// Where an interface has an endpoint in some setting, the pipe of the row is lost.
    pub fn mark(&mut self, pipes: &PipeRow, text: &ConfigView<'_>, interface: u8, is_in: bool)
        ensures value { self.new ≡ marked_row text.now interface is_in pipes.now self.old }
        ensures whole { length self.new ≡ 16 }
    {
        mark_from(&mut self.row, 0, pipes, text, interface, is_in);
    }
}

/// The kind of the pipe at a place, or the mark that is there.
fn mark_of(pipe: Option<EndpointPipe>, mark: Option<EndpointKind>) -> Option<EndpointKind>
    ensures { result ≡ mark_of pipe mark }
{
    match pipe {
        Some(pipe) => Some(pipe.kind()),
        None => mark,
    }
}

/// Where the interface has an endpoint, what another row has takes its place; the first place has
/// this number.
#[cycle(replace_from)]
#[tactic(auto, unfolding(usb_device::specs::Ends::numbered_from))]
fn replace_from(
    row: &mut [Option<EndpointPipe>],
    number: u8,
    new: &PipeRow,
    text: &ConfigView<'_>,
    interface: u8,
    is_in: bool,
)
    requires { number + length row.old ≤ 16 }
    ensures { row.new ≡ numbered_from (replaced_if text.now interface is_in
        (λ e had. get_or new.now e None)) number row.old }
{
    if let Some((place, more)) = row.split_first_mut() {
        if text.names(interface, number, is_in) {
            *place = new.get(number);
        }
        replace_from(more, number + 1, new, text, interface, is_in);
    }
}

/// Where the interface has an endpoint, there is no pipe.
#[cycle(clear_from)]
#[tactic(auto, unfolding(usb_device::specs::Ends::numbered_from))]
fn clear_from(
    row: &mut [Option<EndpointPipe>],
    number: u8,
    text: &ConfigView<'_>,
    interface: u8,
    is_in: bool,
)
    requires { number + length row.old ≤ 16 }
    ensures { row.new ≡ numbered_from (replaced_if text.now interface is_in (λ e had. None))
        number row.old }
{
    if let Some((place, more)) = row.split_first_mut() {
        if text.names(interface, number, is_in) {
            *place = None;
        }
        clear_from(more, number + 1, text, interface, is_in);
    }
}

/// Where the interface has an endpoint, there is no mark.
#[cycle(unmark_from)]
#[tactic(auto, unfolding(usb_device::specs::Ends::numbered_from))]
fn unmark_from(
    row: &mut [Option<EndpointKind>],
    number: u8,
    text: &ConfigView<'_>,
    interface: u8,
    is_in: bool,
)
    requires { number + length row.old ≤ 16 }
    ensures { row.new ≡ numbered_from (replaced_if text.now interface is_in (λ e had. None))
        number row.old }
{
    if let Some((place, more)) = row.split_first_mut() {
        if text.names(interface, number, is_in) {
            *place = None;
        }
        unmark_from(more, number + 1, text, interface, is_in);
    }
}

/// Where the interface has an endpoint, the pipe of the row is lost.
#[cycle(mark_from)]
#[tactic(auto, unfolding(usb_device::specs::Ends::numbered_from))]
fn mark_from(
    row: &mut [Option<EndpointKind>],
    number: u8,
    pipes: &PipeRow,
    text: &ConfigView<'_>,
    interface: u8,
    is_in: bool,
)
    requires { number + length row.old ≤ 16 }
    ensures { row.new ≡ numbered_from (replaced_if text.now interface is_in
        (λ e mark. mark_of (get_or pipes.now e None) mark)) number row.old }
{
    if let Some((place, more)) = row.split_first_mut() {
        if text.names(interface, number, is_in) {
            *place = mark_of(pipes.get(number), *place);
        }
        mark_from(more, number + 1, pipes, text, interface, is_in);
    }
}
