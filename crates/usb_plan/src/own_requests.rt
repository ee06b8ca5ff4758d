//! The key `request` of a device: the requests of its own.

ghost use Rattle.std.specs.Prelude.{◌≡◌, ◌<◌, ◌≤◌, IfOk, Ok, [], option_map, map, length};
ghost use Rattle.std.specs.Result.{ForOk};
ghost use Rattle.toml.specs.View.{view, table_view};
ghost use Rattle.usb_plan.specs.EntryFault.{EqualUnless};
ghost use Rattle.usb_plan.specs.OwnRequests.{answer_of, answer_with, codes_of, codes_with, fields_of, fields_with, given_by, is_own, own_at, read_answer, refusal_at, refusal_named, requests_at, requests_in, requests_of, row_in, row_of, row_with, word_at, word_in, write_answer};
ghost use Rattle.usb_plan.specs.Texts.{items_from, with_item};
ghost use Rattle.usb_plan.specs.declared.entry_fault.EntryFault.TheVariants.{Memory};

use crate::entry_fault::{EntryFault, fault_in_part, least_fault};
use crate::keys::{MOST_REQUESTS, keys_at};
use crate::quirks::flag_at;
use crate::value::{byte_at, hex_in, number_in, tables_in, text_in, value_at};
use std::alloc::Global;
use toml::{Table, Value};
use usb_device::{OwnAnswer, OwnRequest, OwnRequests};
use usb_request::endpoint_address::DIRECTION_IN;

/// A field of a request, of two bytes: 0 to 65,535.
#[tactic(auto, unfolding(crate::specs::OwnRequests::word_in))]
fn word_in(number: Option<i64>) -> Result<Option<u16>, EntryFault>
    ensures { result ≡ word_in number }
{
    let number = number_in(0, 65535, number)?;
    Ok(Some(number as u16))
}

/// The keys `value`, `index` and `length`: two bytes, which may be absent.
#[tactic(auto, unfolding(crate::specs::OwnRequests::word_at))]
fn word_at(value: Option<&Value>) -> Result<Option<u16>, EntryFault>
    ensures { result ≡ word_at (option_map (λ v. view v.now) value.entry) }
{
    match value {
        None => Ok(None),
        Some(value) => word_in(value.as_integer()),
    }
}

/// Whether a device may have a request for itself: one of a class, one of a vendor, or
/// GET_DESCRIPTOR of an interface (9.3.1, 9.4.3).
#[tactic(auto, unfolding(crate::specs::OwnRequests::is_own))]
fn is_own(request_type: u8, request: u8) -> bool
    ensures { result ≡ is_own request_type request }
{
    let kind = request_type / 32 % 4;
    kind == 1 || kind == 2 || request_type == 0x81 && request == 6
}

/// Refuses a request of the standard's.
#[tactic(auto, unfolding(crate::specs::OwnRequests::own_at))]
fn own_at(request_type: Option<&Value>, request: Option<&Value>) -> Result<(), EntryFault>
    ensures { result ≡ own_at (option_map (λ v. view v.now) request_type.entry)
        (option_map (λ v. view v.now) request.entry) }
{
    if is_own(byte_at(request_type)?, byte_at(request)?) {
        Ok(())
    } else {
        Err(EntryFault::BadValue)
    }
}

/// Which requests a row is for, whatever their fields.
#[derive(Clone, Copy)]
struct Codes {
    request_type: u8,
    request: u8,
}

/// The codes of a request, or the least fault of the keys.
#[tactic(auto, unfolding(crate::specs::OwnRequests::codes_with))]
fn codes_with(
    request_type: Result<u8, EntryFault>,
    request: Result<u8, EntryFault>,
    own: Result<(), EntryFault>,
) -> Result<Codes, EntryFault>
    ensures { result ≡ codes_with request_type request own }
{
    least_fault(&[
        fault_in_part(&request_type),
        fault_in_part(&request),
        fault_in_part(&own),
    ])?;
    Ok(Codes {
        request_type: request_type?,
        request: request?,
    })
}

/// The keys `type` and `request` of a table.
#[tactic(auto, unfolding(crate::specs::OwnRequests::codes_of))]
fn codes_of(table: &Table) -> Result<Codes, EntryFault>
    ensures { result ≡ codes_of (table_view table.now) }
{
    let request_type = value_at(table, "type");
    let request = value_at(table, "request");
    let own = own_at(request_type, request);
    codes_with(byte_at(request_type), byte_at(request), own)
}

/// The fields of the requests that a row is for; `None` if any is meant.
#[derive(Clone, Copy)]
struct Fields {
    value: Option<u16>,
    index: Option<u16>,
    length: Option<u16>,
}

/// The fields of a request, or the least fault of the keys.
#[tactic(auto, unfolding(crate::specs::OwnRequests::fields_with))]
fn fields_with(
    value: Result<Option<u16>, EntryFault>,
    index: Result<Option<u16>, EntryFault>,
    length: Result<Option<u16>, EntryFault>,
) -> Result<Fields, EntryFault>
    ensures { result ≡ fields_with value index length }
{
    least_fault(&[
        fault_in_part(&value),
        fault_in_part(&index),
        fault_in_part(&length),
    ])?;
    Ok(Fields {
        value: value?,
        index: index?,
        length: length?,
    })
}

/// The keys `value`, `index` and `length` of a table.
#[tactic(auto, unfolding(crate::specs::OwnRequests::fields_of))]
fn fields_of(table: &Table) -> Result<Fields, EntryFault>
    ensures { result ≡ fields_of (table_view table.now) }
{
    let value = word_at(value_at(table, "value"));
    let index = word_at(value_at(table, "index"));
    let length = word_at(value_at(table, "length"));
    fields_with(value, index, length)
}

/// Where a device refuses a request.
#[derive(Clone, Copy)]
enum Refusal {
    /// From the data stage on.
    Data,
    /// At the status stage.
    Status,
}

/// The refusal of the word `data` or `status`; `BadValue` for any other word.
#[tactic(auto, unfolding(crate::specs::OwnRequests::refusal_named))]
fn refusal_named(text: &str) -> Result<Option<Refusal>, EntryFault>
    ensures { result ≡ refusal_named text.now }
{
    match text {
        "data" => Ok(Some(Refusal::Data)),
        "status" => Ok(Some(Refusal::Status)),
        _ => Err(EntryFault::BadValue),
    }
}

/// The key `refuse`, which may be absent.
#[tactic(auto, unfolding(crate::specs::OwnRequests::refusal_at))]
fn refusal_at(value: Option<&Value>) -> Result<Option<Refusal>, EntryFault>
    ensures { result ≡ refusal_at (option_map (λ v. view v.now) value.entry) }
{
    match value {
        None => Ok(None),
        Some(value) => refusal_named(text_in(value)?),
    }
}

/// What a request that reads is given: the bytes of a key, or what control writes have brought.
#[tactic(auto, unfolding(crate::specs::OwnRequests::given_by))]
fn given_by(alloc: Global, answer: Option<&Value>, kept: bool) -> Result<OwnAnswer, EntryFault>
    ensures { EqualUnless Memory result
        (given_by (option_map (λ v. view v.now) answer.entry) kept) }
{
    match (answer, kept) {
        (None, false) => Err(EntryFault::MissingKey),
        (None, true) => Ok(OwnAnswer::GiveTaken),
        (Some(value), false) => Ok(OwnAnswer::Give(hex_in::<65535>(alloc, value)?)),
        (Some(_), true) => Err(EntryFault::BadValue),
    }
}

/// What a device does about a request that reads.
#[tactic(auto, unfolding(crate::specs::OwnRequests::read_answer))]
fn read_answer(
    alloc: Global,
    answer: Option<&Value>,
    kept: bool,
    refusal: Option<Refusal>,
) -> Result<OwnAnswer, EntryFault>
    ensures { EqualUnless Memory result
        (read_answer (option_map (λ v. view v.now) answer.entry) kept refusal) }
{
    match refusal {
        None => given_by(alloc, answer, kept),
        Some(Refusal::Data) if answer.is_none() && !kept => Ok(OwnAnswer::RefuseData),
        Some(_) => Err(EntryFault::BadValue),
    }
}

/// What a device does about a request that writes.
#[tactic(auto, unfolding(crate::specs::OwnRequests::write_answer))]
fn write_answer(refusal: Option<Refusal>) -> OwnAnswer
    ensures { result ≡ write_answer refusal }
{
    match refusal {
        None => OwnAnswer::Take,
        Some(Refusal::Data) => OwnAnswer::RefuseData,
        Some(Refusal::Status) => OwnAnswer::RefuseStatus,
    }
}

/// What a device does about a request of this type. One that reads has no `length`, one that writes
/// gives nothing.
#[tactic(auto, unfolding(crate::specs::OwnRequests::answer_with))]
fn answer_with(
    alloc: Global,
    request_type: u8,
    has_length: bool,
    answer: Option<&Value>,
    kept: bool,
    refusal: Option<Refusal>,
) -> Result<OwnAnswer, EntryFault>
    ensures { EqualUnless Memory result (answer_with request_type has_length
        (option_map (λ v. view v.now) answer.entry) kept refusal) }
{
    if request_type >= DIRECTION_IN {
        if has_length {
            return Err(EntryFault::BadValue);
        }
        return read_answer(alloc, answer, kept, refusal);
    }
    if answer.is_some() || kept {
        return Err(EntryFault::BadValue);
    }
    Ok(write_answer(refusal))
}

/// The keys `answer`, `kept` and `refuse` of a table.
#[tactic(auto, unfolding(crate::specs::OwnRequests::answer_of))]
fn answer_of(alloc: Global, table: &Table) -> Result<OwnAnswer, EntryFault>
    ensures { EqualUnless Memory result (answer_of (table_view table.now)) }
{
    let request_type = byte_at(value_at(table, "type"))?;
    let kept = flag_at(value_at(table, "kept"))?;
    let refusal = refusal_at(value_at(table, "refuse"))?;
    let has_length = value_at(table, "length").is_some();
    let answer = value_at(table, "answer");
    answer_with(alloc, request_type, has_length, answer, kept, refusal)
}

/// The request of these parts, or their least fault.
#[tactic(auto, unfolding(crate::specs::OwnRequests::row_with))]
fn row_with(
    codes: Result<Codes, EntryFault>,
    fields: Result<Fields, EntryFault>,
    answer: Result<OwnAnswer, EntryFault>,
    keys: Result<(), EntryFault>,
) -> Result<OwnRequest, EntryFault>
    ensures { result ≡ row_with codes fields answer keys }
{
    least_fault(&[
        fault_in_part(&codes),
        fault_in_part(&fields),
        fault_in_part(&answer),
        fault_in_part(&keys),
    ])?;
    let codes = codes?;
    let fields = fields?;
    Ok(OwnRequest {
        request_type: codes.request_type,
        request: codes.request,
        value: fields.value,
        index: fields.index,
        length: fields.length,
        answer: answer?,
    })
}

const KEYS: [&str; 8] = [
    "type", "request", "value", "index", "length", "answer", "kept", "refuse",
];

/// The row that a table describes.
#[tactic(auto, unfolding(crate::specs::OwnRequests::row_of))]
fn row_of(alloc: Global, table: &Table) -> Result<OwnRequest, EntryFault>
    ensures { EqualUnless Memory result (row_of (table_view table.now)) }
{
    let answer = answer_of(alloc, table);
    row_with(
        codes_of(table),
        fields_of(table),
        answer,
        keys_at(table, &KEYS),
    )
}

/// The row that a value describes; `BadValue` if the value is no table.
#[tactic(auto, unfolding(crate::specs::OwnRequests::row_in))]
fn row_in(alloc: Global, value: &Value) -> Result<OwnRequest, EntryFault>
    ensures { EqualUnless Memory result (row_in (view value.now)) }
{
    row_of(alloc, value.as_table().ok_or(EntryFault::BadValue)?)
}

/// The rows with one more at their end.
#[tactic(auto, unfolding(crate::specs::Texts::with_item))]
fn with_row(
    rows: Result<OwnRequests, EntryFault>,
    row: Result<OwnRequest, EntryFault>,
) -> Result<OwnRequests, EntryFault>
    requires { ForOk rows (λ x. length x < 64) }
    ensures { EqualUnless Memory result (with_item rows row) }
{
    least_fault(&[fault_in_part(&rows), fault_in_part(&row)])?;
    let mut rows = rows?;
    rows.push(row?)?;
    Ok(rows)
}

/// The rows of at most this number of values, or the first fault of them in the order of faults.
fn rows_of(alloc: Global, values: &[Value]) -> Result<OwnRequests, EntryFault>
    requires { length values.now ≤ 64 }
    ensures { EqualUnless Memory result (items_from row_in (Ok []) (map view values.now)) }
{
    let mut rows = Ok(OwnRequests::new(alloc));
    for value in values {
        rows = with_row(rows, row_in(alloc, value));
    }
    rows
}

/// The rows of an array of at most 64 tables.
#[tactic(auto, unfolding(crate::specs::OwnRequests::requests_in))]
fn requests_in(alloc: Global, value: &Value) -> Result<OwnRequests, EntryFault>
    ensures { EqualUnless Memory result (requests_in (view value.now)) }
{
    rows_of(alloc, tables_in(MOST_REQUESTS, value)?)
}

/// The key of them, which may be absent.
#[tactic(auto, unfolding(crate::specs::OwnRequests::requests_at))]
fn requests_at(alloc: Global, value: Option<&Value>) -> Result<OwnRequests, EntryFault>
    ensures { EqualUnless Memory result (requests_at (option_map (λ v. view v.now) value.entry)) }
{
    match value {
        None => Ok(OwnRequests::new(alloc)),
        Some(value) => requests_in(alloc, value),
    }
}

/// The key `request` of a device.
#[tactic(auto, unfolding(crate::specs::OwnRequests::requests_of))]
pub(crate) fn requests_of(alloc: Global, table: &Table) -> Result<OwnRequests, EntryFault>
    ensures { EqualUnless Memory result (requests_of (table_view table.now)) }
{
    requests_at(alloc, value_at(table, "request"))
}
