//! The key `when`: which place in another host's run it is.

ghost use Rattle.std.specs.Prelude.{◌≡◌, ◌≤◌, IfSome, map, option_map};
ghost use Rattle.std.specs.Result.{result_map_both};
ghost use Rattle.toml.specs.Data.{get_member};
ghost use Rattle.toml.specs.View.{view, table_view};
ghost use Rattle.usb_places.specs.Whens.{allowed, device_at, exact_sign, moment_at, moment_named, named_sign, nth_at, number_from, path_at, port_of, port_read, reset_sign, setup_in, sign_by, sign_of, status_sign, text_or, wait_sign, when_in};

use crate::fault::WhenFault;
use crate::request::{Asked, Request, request_named};
use toml::{Table, Value};
use usb_plan::only_named;
use usb_port::PortPath;
use usb_request::Setup;

/// What of a request a place is before.
#[derive(Clone, Copy, Debug, PartialEq, Eq)]
pub enum Moment {
    /// The first attempt with its setup data (8.5.3).
    Token,
    /// The first attempt of its data stage.
    Data,
    /// The first attempt of its status stage.
    Answer,
    /// The first attempt behind those of its status stage.
    After,
}

/// What a host does at a place.
#[derive(Debug, Drop)]
pub enum Sign {
    /// It makes a request of the device whose port has this path.
    Request {
        /// Which requests are counted.
        asked: Asked,
        /// Where the device is plugged.
        device: PortPath,
        /// What of the request the place is before.
        moment: Moment,
    },
    /// It resets a root port.
    Reset(u8),
    /// It reads the status of a root port.
    Status(u8),
    /// It waits, with nothing left to do.
    Wait,
}

/// A place in a host's run.
#[derive(Debug, Drop)]
pub struct When {
    /// What the host does there.
    pub sign: Sign,
    /// Which time that is, counted from 1.
    pub nth: u64,
}

/// The value at a key.
pub(crate) fn value_at<'a>(table: &'a Table, key: &str) -> Option<&'a Value>
    ensures { option_map (λ v. view v.now) result ≡ get_member key.now (table_view table.now) }
{
    table.get(key)
}

/// A text, or this fault.
#[tactic(auto, unfolding(crate::specs::Whens::text_or))]
fn text_or<'a>(fault: WhenFault, value: Option<&'a Value>) -> Result<&'a str, WhenFault>
    ensures { result_map_both (λ t. t.now) (λ k. k) result
        ≡ text_or fault (option_map (λ v. view v.now) value.entry) }
{
    let value = value.ok_or(fault)?;
    value.as_str().ok_or(fault)
}

/// A number from `low` to `high`.
#[tactic(auto, unfolding(crate::specs::Whens::number_from))]
fn number_from(low: u64, high: u64, number: Option<i64>) -> Option<u64>
    ensures value { result ≡ number_from low high number }
    ensures most { IfSome result (λ n. n ≤ high) }
{
    match number {
        Some(number) if number >= 0 => {
            let number = number as u64;
            if (low..=high).contains(&number) {
                Some(number)
            } else {
                None
            }
        }
        _ => None,
    }
}

/// The key `nth`, 1 without it.
#[tactic(auto, unfolding(crate::specs::Whens::nth_at))]
fn nth_at(value: Option<&Value>) -> Result<u64, WhenFault>
    ensures { result ≡ nth_at (option_map (λ v. view v.now) value.entry) }
{
    match value {
        None => Ok(1),
        Some(value) => number_from(1, 1_000_000_000, value.as_integer()).ok_or(WhenFault::Nth),
    }
}

/// The number of a root port.
#[tactic(auto, unfolding(crate::specs::Whens::port_read))]
fn port_read(value: &Value) -> Result<u8, WhenFault>
    ensures { result ≡ port_read (view value.now) }
{
    match number_from(1, 7, value.as_integer()) {
        None => Err(WhenFault::Port),
        Some(number) => Ok(number as u8),
    }
}

/// The moment of this word; the fault `Moment` if it is none.
#[tactic(auto, unfolding(crate::specs::Whens::moment_named))]
fn moment_named(text: &str) -> Result<Moment, WhenFault>
    ensures { result ≡ moment_named text.now }
{
    match text {
        "token" => Ok(Moment::Token),
        "data" => Ok(Moment::Data),
        "answer" => Ok(Moment::Answer),
        "after" => Ok(Moment::After),
        _ => Err(WhenFault::Moment),
    }
}

/// The key `at`, the token without it.
#[tactic(auto, unfolding(crate::specs::Whens::moment_at))]
fn moment_at(value: Option<&Value>) -> Result<Moment, WhenFault>
    ensures { result ≡ moment_at (option_map (λ v. view v.now) value.entry) }
{
    match value {
        None => Ok(Moment::Token),
        Some(value) => moment_named(text_or(WhenFault::Moment, Some(value))?),
    }
}

/// The key `path`.
#[tactic(auto, unfolding(crate::specs::Whens::path_at))]
fn path_at(value: Option<&Value>) -> Result<PortPath, WhenFault>
    ensures { result ≡ path_at (option_map (λ v. view v.now) value.entry) }
{
    let text = text_or(WhenFault::Path, value)?;
    PortPath::from_text(text).ok_or(WhenFault::Path)
}

/// The path of the device that the request goes to: of a port's, that of its hub.
#[tactic(auto, unfolding(crate::specs::Whens::device_at))]
fn device_at(request: Request, path: &PortPath) -> Result<PortPath, WhenFault>
    ensures { result ≡ device_at request path.now }
{
    if request.is_of_port() {
        path.parent().ok_or(WhenFault::Path)
    } else {
        Ok(path.duplicate())
    }
}

/// The port of a hub that the request is to, 0 if it is to none.
#[tactic(auto, unfolding(crate::specs::Whens::port_of))]
fn port_of(request: Request, path: &PortPath) -> u8
    ensures { result ≡ port_of request path.now }
{
    if request.is_of_port() { path.port() } else { 0 }
}

/// The keys `request`, `path` and `at`.
#[tactic(auto, unfolding(crate::specs::Whens::named_sign))]
fn named_sign(value: &Value, table: &Table) -> Result<Sign, WhenFault>
    ensures { result ≡ named_sign (view value.now) (table_view table.now) }
{
    let request = request_named(text_or(WhenFault::Request, Some(value))?)?;
    let path = path_at(value_at(table, "path"))?;
    let device = device_at(request, &path)?;
    let moment = moment_at(value_at(table, "at"))?;
    Ok(Sign::Request {
        asked: Asked::Named(request, port_of(request, &path)),
        device,
        moment,
    })
}

/// The setup data of a text with two digits for each of eight bytes.
#[tactic(auto, unfolding(crate::specs::Whens::setup_in))]
fn setup_in(text: &str) -> Result<Setup, WhenFault>
    ensures { result ≡ setup_in text.now }
{
    let mut bytes = [0u8; 8];
    match hex::decode_to_slice(text.as_bytes(), &mut bytes) {
        Ok(()) => Ok(Setup::from_bytes(bytes)),
        Err(_) => Err(WhenFault::Setup),
    }
}

/// The keys `setup`, `path` and `at`.
#[tactic(auto, unfolding(crate::specs::Whens::exact_sign))]
fn exact_sign(value: &Value, table: &Table) -> Result<Sign, WhenFault>
    ensures { result ≡ exact_sign (view value.now) (table_view table.now) }
{
    let setup = setup_in(text_or(WhenFault::Setup, Some(value))?)?;
    let device = path_at(value_at(table, "path"))?;
    let moment = moment_at(value_at(table, "at"))?;
    Ok(Sign::Request {
        asked: Asked::Exact(setup),
        device,
        moment,
    })
}

/// The key `reset`.
#[tactic(auto, unfolding(crate::specs::Whens::reset_sign))]
fn reset_sign(value: &Value) -> Result<Sign, WhenFault>
    ensures { result ≡ reset_sign (view value.now) }
{
    Ok(Sign::Reset(port_read(value)?))
}

/// The key `port`.
#[tactic(auto, unfolding(crate::specs::Whens::status_sign))]
fn status_sign(value: &Value) -> Result<Sign, WhenFault>
    ensures { result ≡ status_sign (view value.now) }
{
    Ok(Sign::Status(port_read(value)?))
}

/// The key `wait`, which is `true`.
#[tactic(auto, unfolding(crate::specs::Whens::wait_sign))]
fn wait_sign(value: &Value) -> Result<Sign, WhenFault>
    ensures { result ≡ wait_sign (view value.now) }
{
    match value.as_bool() {
        Some(true) => Ok(Sign::Wait),
        _ => Err(WhenFault::Wait),
    }
}

/// Refuses a table with any other key.
#[tactic(auto, unfolding(crate::specs::Whens::allowed))]
fn allowed(names: &[&str], table: &Table) -> Result<(), WhenFault>
    ensures { result ≡ allowed (map (λ n. n.now) names.now) (table_view table.now) }
{
    if only_named(table, names) {
        Ok(())
    } else {
        Err(WhenFault::Keys)
    }
}

/// What these keys say, of which the first one counts that is there.
#[tactic(auto, unfolding(crate::specs::Whens::sign_by))]
fn sign_by(
    request: Option<&Value>,
    setup: Option<&Value>,
    reset: Option<&Value>,
    port: Option<&Value>,
    wait: Option<&Value>,
    table: &Table,
) -> Result<Sign, WhenFault>
    ensures { result ≡ sign_by (option_map (λ v. view v.now) request.entry)
        (option_map (λ v. view v.now) setup.entry) (option_map (λ v. view v.now) reset.entry)
        (option_map (λ v. view v.now) port.entry) (option_map (λ v. view v.now) wait.entry)
        (table_view table.now) }
{
    match (request, setup, reset, port, wait) {
        (Some(value), _, _, _, _) => {
            allowed(&["request", "path", "at", "nth"], table)?;
            named_sign(value, table)
        }
        (None, Some(value), _, _, _) => {
            allowed(&["setup", "path", "at", "nth"], table)?;
            exact_sign(value, table)
        }
        (None, None, Some(value), _, _) => {
            allowed(&["reset", "nth"], table)?;
            reset_sign(value)
        }
        (None, None, None, Some(value), _) => {
            allowed(&["port", "nth"], table)?;
            status_sign(value)
        }
        (None, None, None, None, Some(value)) => {
            allowed(&["wait", "nth"], table)?;
            wait_sign(value)
        }
        (None, None, None, None, None) => Err(WhenFault::NoSign),
    }
}

/// The sign of a table: it has exactly one of the keys `request`, `setup`, `reset`, `port` and
/// `wait`.
#[tactic(auto, unfolding(crate::specs::Whens::sign_of))]
fn sign_of(table: &Table) -> Result<Sign, WhenFault>
    ensures { result ≡ sign_of (table_view table.now) }
{
    sign_by(
        value_at(table, "request"),
        value_at(table, "setup"),
        value_at(table, "reset"),
        value_at(table, "port"),
        value_at(table, "wait"),
        table,
    )
}

/// The place that a value says.
#[tactic(auto, unfolding(crate::specs::Whens::when_in))]
pub(crate) fn when_in(value: &Value) -> Result<When, WhenFault>
    ensures { result ≡ when_in (view value.now) }
{
    let table = value.as_table().ok_or(WhenFault::NoTable)?;
    let sign = sign_of(table)?;
    let nth = nth_at(value_at(table, "nth"))?;
    Ok(When { sign, nth })
}
