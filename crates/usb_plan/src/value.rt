//! Single values of the document.

ghost use Rattle.std.specs.Prelude.{◌≡◌, ◌≤◌, IfOk, option_map, map, length};
ghost use Rattle.std.specs.List.{list_all};
ghost use Rattle.toml.specs.Data.{get_member};
ghost use Rattle.toml.specs.View.{view, table_view};
ghost use Rattle.usb_plan.specs.EntryFault.{EqualUnless};
ghost use Rattle.std.specs.Result.{result_map_both};
ghost use Rattle.usb_plan.specs.Value.{text_in, read_text, read_items, is_table, tables_in, number_in, number_at, byte_at, number_or, hex_in, hex_bytes};
ghost use Rattle.usb_plan.specs.declared.entry_fault.EntryFault.TheVariants.{Memory};

use crate::digits::decoded;
use crate::entry_fault::EntryFault;
use std::alloc::Global;
use toml::{Table, Value};
use usb_device::Bytes;
use usb_world::SentBytes;

/// The value at a key.
pub(crate) fn value_at<'a>(table: &'a Table, key: &str) -> Option<&'a Value>
    ensures { option_map (λ v. view v.now) result ≡ get_member key.now (table_view table.now) }
{
    table.get(key)
}

/// The text that a value is.
#[tactic(auto, unfolding(crate::specs::Value::text_in))]
pub(crate) fn text_in(value: &Value) -> Result<&str, EntryFault>
    ensures { result_map_both (λ t. t.now) (λ k. k) result ≡ text_in (view value.now) }
{
    value.as_str().ok_or(EntryFault::BadValue)
}

/// A text that has to be there.
#[tactic(auto, unfolding(crate::specs::Value::read_text))]
pub(crate) fn read_text<'a>(value: Option<&'a Value>) -> Result<&'a str, EntryFault>
    ensures { result_map_both (λ t. t.now) (λ k. k) result
        ≡ read_text (option_map (λ v. view v.now) value.entry) }
{
    text_in(value.ok_or(EntryFault::MissingKey)?)
}

/// The values of the array that a value is.
#[tactic(auto, using(crate::proofs::Steps::data_list_view), unfolding(crate::specs::Value::read_items))]
pub(crate) fn read_items(value: &Value) -> Result<&[Value], EntryFault>
    ensures { result_map_both (λ vs. map view vs.now) (λ k. k) result
        ≡ read_items (view value.now) }
{
    let values = value.as_array().ok_or(EntryFault::BadValue)?;
    Ok(values.as_slice())
}

/// Whether a value is a table.
fn is_table(value: &Value) -> bool
    ensures { result ≡ is_table (view value.now) }
{
    value.as_table().is_some()
}

/// Whether each value is a table.
pub(crate) fn are_tables(values: &[Value]) -> bool
    ensures { result ≡ list_all (λ v. is_table (view v)) values.now }
{
    values.iter().all(|value| is_table(value))
}

/// The values of an array of at most this number of tables.
#[tactic(auto, using(crate::proofs::Steps::are_tables_view), unfolding(crate::specs::Value::tables_in))]
pub(crate) fn tables_in(most: usize, value: &Value) -> Result<&[Value], EntryFault>
    ensures value { result_map_both (λ vs. map view vs.now) (λ k. k) result
        ≡ tables_in most (view value.now) }
    ensures few { IfOk result (λ vs. length vs.now ≤ most) }
{
    let values = read_items(value)?;
    if values.len() <= most && are_tables(values) {
        Ok(values)
    } else {
        Err(EntryFault::BadValue)
    }
}

/// A number from `low` to `high`.
#[tactic(auto, unfolding(crate::specs::Value::number_in))]
pub(crate) fn number_in(low: u64, high: u64, number: Option<i64>) -> Result<u64, EntryFault>
    ensures value { result ≡ number_in low high number }
    ensures least { IfOk result (λ n. low ≤ n) }
    ensures most { IfOk result (λ n. n ≤ high) }
{
    match number {
        Some(number) if number >= 0 => {
            let number = number as u64;
            if (low..=high).contains(&number) {
                Ok(number)
            } else {
                Err(EntryFault::BadValue)
            }
        }
        _ => Err(EntryFault::BadValue),
    }
}

/// A number that has to be there.
#[tactic(auto, unfolding(crate::specs::Value::number_at))]
pub(crate) fn number_at(low: u64, high: u64, value: Option<&Value>) -> Result<u64, EntryFault>
    ensures { result ≡ number_at low high (option_map (λ v. view v.now) value.entry) }
{
    let value = value.ok_or(EntryFault::MissingKey)?;
    number_in(low, high, value.as_integer())
}

/// A byte that has to be there.
#[tactic(auto, unfolding(crate::specs::Value::byte_at, crate::specs::Value::number_at))]
pub(crate) fn byte_at(value: Option<&Value>) -> Result<u8, EntryFault>
    ensures { result ≡ byte_at (option_map (λ v. view v.now) value.entry) }
{
    let value = value.ok_or(EntryFault::MissingKey)?;
    let number = number_in(0, 255, value.as_integer())?;
    Ok(number as u8)
}

/// A number that may be absent, and then is `absent`.
#[tactic(auto, unfolding(crate::specs::Value::number_or))]
pub(crate) fn number_or(
    absent: u64,
    low: u64,
    high: u64,
    value: Option<&Value>,
) -> Result<u64, EntryFault>
    ensures { result ≡ number_or absent low high (option_map (λ v. view v.now) value.entry) }
{
    match value {
        None => Ok(absent),
        Some(value) => number_in(low, high, value.as_integer()),
    }
}

/// The bytes of a hex text, at most this number.
#[tactic(auto, unfolding(crate::specs::Value::hex_in, crate::specs::Value::hex_bytes))]
pub(crate) fn hex_in<const MAX: usize>(
    alloc: Global,
    value: &Value,
) -> Result<Bytes<MAX>, EntryFault>
    ensures { EqualUnless Memory result (hex_in MAX (view value.now)) }
{
    let bytes = decoded(alloc, text_in(value)?)?;
    if bytes.len() <= MAX {
        Ok(Bytes::new(bytes))
    } else {
        Err(EntryFault::BadValue)
    }
}

/// The bytes of a hex text, however many.
#[tactic(auto, unfolding(crate::specs::Value::hex_bytes))]
pub(crate) fn hex_bytes(alloc: Global, value: &Value) -> Result<SentBytes, EntryFault>
    ensures { EqualUnless Memory result (hex_bytes (view value.now)) }
{
    let bytes = decoded(alloc, text_in(value)?)?;
    Ok(SentBytes::new(bytes))
}
