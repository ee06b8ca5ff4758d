//! The way of an attempt: straight to the device that holds its address, if one does.
ghost use Rattle.std.specs.Prelude.{◌≡◌, ◌≤◌, ◌++◌, ◌∷◌, [], length, true, IfOk, OnOk, OnErr};
ghost use Rattle.usb_function.specs.HolderIndex.{IsIndexOf};
ghost use Rattle.usb_world.specs.PlainAttempts.{attempt_data};
ghost use Rattle.usb_world.specs.Worlds.{IsAttempt};
ghost use Rattle.usb_world.specs.ExchangeEffects.{StaysPlugged, Exchanged};
ghost use Rattle.usb_world.specs.AttemptPackets.{IsSettled};
ghost use Rattle.usb_world.specs.Steps.{IsCut};
ghost use Rattle.usb_exchange.specs.Route.{way_in};
ghost use Rattle.usb_world.specs.LonePackets.{IsWayTo};

use crate::exchange::{ExchangeRoom, exchange_along, is_whole, make_silence};
use arrayvec::ArrayVec;
use std::alloc::AllocError;
use usb_device::{Holder, keeps_enable};
use usb_function::{Device, Holders, Ports};
use usb_port::PortCall;
use usb_request::Setup;
use usb_request::request_code::{CLEAR_FEATURE, SET_CONFIGURATION, SET_FEATURE};
use usb_request::request_type::{DEVICE_OUT, PORT_OUT};
use usb_world::{Attempt, Damage};

/// Makes an attempt: the token, then the data, one of them; then what the host says to the answer.
/// After it no device remembers a packet, also if memory was refused.
///
/// `holders` is the index of the tree, before the attempt and after it. It goes straight to the
/// device that holds its address, or to none; if some address is held twice, through the whole
/// tree. If it is foreseen that the device takes another address, or changes who is reached below
/// it, the index is written there alone. Else it is made anew if it may have changed.
///
/// # Errors
///
/// Memory was refused for the host's data.
#[inline(always)]
#[tactic(auto, using(usb_world::proofs::attempts::Exchanges::stays_plugged_refl))]
pub fn make_exchange_by(
    roots: &mut Ports,
    holders: &mut Holders,
    attempt: &Attempt,
    damage: &Option<Damage>,
    exchange: &mut ExchangeRoom,
) -> Result<(), AllocError>
    requires attempt { IsAttempt (attempt_data attempt.now) }
    requires settled { IsSettled roots.old }
    requires index { IsIndexOf holders.old roots.old }
    ensures plugged { StaysPlugged roots.old roots.new }
    ensures settled { IsSettled roots.new }
    ensures made { OnOk result (Exchanged (attempt_data attempt.now) damage.now roots.old roots.new
        exchange.new) }
    ensures cut { OnErr result (IsCut (attempt_data attempt.now) damage.now roots.old roots.new) }
    ensures index { IsIndexOf holders.new roots.new }
{
    if let Holder::Nobody = holders.holder(attempt.destination().address) {
        make_silence(attempt, damage, exchange);
        return Ok(());
    }
    let way = way(holders, attempt);
    match change_of(attempt, roots, way) {
        Change::Nothing => {
            let made = exchange_along(roots, way, 0, attempt, damage, exchange);
            renew_unless_kept(&made, roots, holders);
            let _ = made?;
            Ok(())
        }
        Change::AtDevice => {
            let path = copied(way);
            exchange_at(roots, holders, path.as_slice(), attempt, damage, exchange)
        }
        Change::AtPort(port) => {
            let path = copied(way);
            exchange_at_port(
                roots,
                holders,
                path.as_slice(),
                port,
                attempt,
                damage,
                exchange,
            )
        }
    }
}

/// Makes the index anew after an attempt, unless that is known to have left it as it was.
fn renew_unless_kept(made: &Result<bool, AllocError>, roots: &Ports, holders: &mut Holders)
    requires { IfOk made.now (λ kept. kept ≡ true → IsIndexOf holders.old roots.now) }
    ensures { IsIndexOf holders.new roots.now }
{
    match made {
        Ok(true) => {}
        Ok(false) | Err(_) => holders.renew(roots),
    }
}

/// Makes an attempt at the device at a path that alone holds the address; who is reached there and
/// below may change.
#[inline(never)]
fn exchange_at(
    roots: &mut Ports,
    holders: &mut Holders,
    path: &[u8],
    attempt: &Attempt,
    damage: &Option<Damage>,
    exchange: &mut ExchangeRoom,
) -> Result<(), AllocError>
    requires attempt { IsAttempt (attempt_data attempt.now) }
    requires settled { IsSettled roots.old }
    requires index { IsIndexOf holders.old roots.old }
    requires way { IsWayTo (attempt_data attempt.now).addr roots.old path.now }
    ensures plugged { StaysPlugged roots.old roots.new }
    ensures settled { IsSettled roots.new }
    ensures made { OnOk result (Exchanged (attempt_data attempt.now) damage.now roots.old roots.new
        exchange.new) }
    ensures cut { OnErr result (IsCut (attempt_data attempt.now) damage.now roots.old roots.new) }
    ensures index { IsIndexOf holders.new roots.new }
{
    let forgotten = holders.forget(roots, path);
    match exchange_along(roots, path, 0, attempt, damage, exchange) {
        Ok(_) => {
            if forgotten && !is_whole(path) {
                holders.note(roots, path);
            } else {
                holders.renew(roots);
            }
            Ok(())
        }
        Err(error) => {
            holders.renew(roots);
            Err(error)
        }
    }
}

/// Makes an attempt at the device at a path that alone holds the address; who is reached on its
/// port of a number, and below, may change.
#[inline(never)]
fn exchange_at_port(
    roots: &mut Ports,
    holders: &mut Holders,
    path: &[u8],
    port: u8,
    attempt: &Attempt,
    damage: &Option<Damage>,
    exchange: &mut ExchangeRoom,
) -> Result<(), AllocError>
    requires attempt { IsAttempt (attempt_data attempt.now) }
    requires settled { IsSettled roots.old }
    requires index { IsIndexOf holders.old roots.old }
    requires way { IsWayTo (attempt_data attempt.now).addr roots.old path.now }
    requires most { length path.now ≤ 8 }
    ensures plugged { StaysPlugged roots.old roots.new }
    ensures settled { IsSettled roots.new }
    ensures made { OnOk result (Exchanged (attempt_data attempt.now) damage.now roots.old roots.new
        exchange.new) }
    ensures cut { OnErr result (IsCut (attempt_data attempt.now) damage.now roots.old roots.new) }
    ensures index { IsIndexOf holders.new roots.new }
{
    let below = below(path, port);
    let place = below.as_slice();
    let forgotten = holders.forget(roots, place);
    match exchange_along(roots, path, port, attempt, damage, exchange) {
        Ok(kept) => {
            if forgotten && kept {
                holders.note(roots, place);
            } else {
                holders.renew(roots);
            }
            Ok(())
        }
        Err(error) => {
            holders.renew(roots);
            Err(error)
        }
    }
}

/// What an attempt is seen to change of who is reached, and of their addresses, before it is made.
/// Nothing rests on it but the time that the index takes.
enum Change {
    /// Nothing.
    Nothing,
    /// The device may take another address, or turn all its ports off.
    AtDevice,
    /// The device may enable or disable its port of this number, or reset the device on it.
    AtPort(u8),
}

/// An IN of endpoint 0 at address 0 may end SET_ADDRESS (9.4.6), and SET_CONFIGURATION resets all
/// ports off (9.4.7).
#[inline(always)]
fn change_of(attempt: &Attempt, roots: &Ports, way: &[u8]) -> Change {
    match attempt {
        Attempt::In { to } if to.address == 0 && to.number == 0 => {
            change_of_status(roots.device_at(way))
        }
        Attempt::Setup { bytes, .. } => change_of_request(&Setup::from_bytes(*bytes)),
        Attempt::In { .. } | Attempt::Out { .. } => Change::Nothing,
    }
}

#[inline(always)]
fn change_of_status(device: Option<&Device>) -> Change {
    match device {
        Some(device) if device.ends_with_address() => Change::AtDevice,
        _ => Change::Nothing,
    }
}

#[inline(always)]
fn change_of_request(setup: &Setup) -> Change {
    match (setup.request_type, setup.request) {
        (DEVICE_OUT, SET_CONFIGURATION) => Change::AtDevice,
        (PORT_OUT, SET_FEATURE) => change_of_call(PortCall::of_set(setup.value), setup.index),
        (PORT_OUT, CLEAR_FEATURE) => change_of_call(PortCall::of_clear(setup.value), setup.index),
        _ => Change::Nothing,
    }
}

fn change_of_call(call: Option<PortCall>, port: u16) -> Change {
    match (call, u8::try_from(port)) {
        (Some(call), Ok(port)) if !keeps_enable(call) => Change::AtPort(port),
        _ => Change::Nothing,
    }
}

/// The path of a port below another path.
fn below(path: &[u8], port: u8) -> ArrayVec<u8, 9>
    requires { length path.now ≤ 8 }
    ensures { result.items ≡ path.now ++ port ∷ [] }
{
    let mut place = ArrayVec::new();
    place.try_extend_from_slice(path).unwrap();
    place.push(port);
    place
}

/// The same path.
fn copied(path: &[u8]) -> ArrayVec<u8, 8>
    requires { length path.now ≤ 8 }
    ensures { result.items ≡ path.now }
{
    let mut copy = ArrayVec::new();
    copy.try_extend_from_slice(path).unwrap();
    copy
}

/// The path of the one device that holds an attempt's address; the empty path, which stands for the
/// whole tree, if none is known.
fn way<'a>(holders: &'a Holders, attempt: &Attempt) -> &'a [u8]
    ensures value { result.now ≡ way_in holders.now (attempt_data attempt.now).addr }
    ensures most { length result.now ≤ 8 }
{
    if holders.is_shared() {
        return &[];
    }
    match holders.holder(attempt.destination().address) {
        Holder::One(path) => path.as_slice(),
        Holder::Nobody | Holder::Several => &[],
    }
}
