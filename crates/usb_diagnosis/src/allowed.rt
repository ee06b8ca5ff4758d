//! What a key allows, in words.

use crate::key::{IN, Kind, OUT, PlanKey};
use std::alloc::AllocError;

/// Adds words between quotation marks, with commas between them, and before the last one this.
fn push_words(out: &mut String, words: &[&str], last: &str) -> Result<(), AllocError> {
    for (i, word) in words.iter().enumerate() {
        if i > 0 {
            out.push_str(if i + 1 < words.len() { ", " } else { last })?;
        }
        write!(out, "\"{word}\"")?;
    }
    Ok(())
}

/// Adds what the kind of a key allows.
fn push_kind(out: &mut String, key: PlanKey) -> Result<(), AllocError> {
    match key.kind {
        Kind::Number(low, high) => write!(out, "a number from {low} to {high}"),
        Kind::NumberAs(_, _, words) | Kind::Text(words) | Kind::Place(words) => out.push_str(words),
        Kind::Flag => out.push_str("true or false"),
        Kind::Word(words) => push_words(out, words, " or "),
        Kind::Words(words) => {
            out.push_str("an array of ")?;
            push_words(out, words, ", ")
        }
        Kind::Address => write!(
            out,
            "a number from {} to {} for OUT or from {} to {} for IN",
            OUT.0, OUT.1, IN.0, IN.1
        ),
        Kind::AnyHex
        | Kind::Hex(_)
        | Kind::WholeHex(_)
        | Kind::Hexes(_, _)
        | Kind::Tables
        | Kind::Endpoints(_)
        | Kind::Requests(_) => push_many(out, key),
    }
}

/// Adds what the kind of a key allows whose value is bytes, texts or tables.
fn push_many(out: &mut String, key: PlanKey) -> Result<(), AllocError> {
    match key.kind {
        Kind::AnyHex => out.push_str("two hexadecimal digits for each byte"),
        Kind::Hex(most) => write!(
            out,
            "two hexadecimal digits for each of at most {most} bytes"
        ),
        Kind::WholeHex(count) => write!(out, "two hexadecimal digits for each of {count} bytes"),
        Kind::Hexes(count, most) => write!(
            out,
            "at most {count} texts, each of two hexadecimal digits for each of at most {most} bytes"
        ),
        Kind::Tables => write!(out, "tables, each headed [[{}]]", key.name),
        Kind::Endpoints(most) => write!(
            out,
            "at most {most} tables, each with an `address`, and what the endpoint gives or how it \
            hesitates"
        ),
        Kind::Requests(most) => write!(
            out,
            "at most {most} tables, each with `type`, `request`, and what the device does about it"
        ),
        _ => Ok(()),
    }
}

/// Adds what is allowed at the key.
pub(crate) fn push_allowed_at(out: &mut String, key: PlanKey) -> Result<(), AllocError> {
    push_kind(out, key)?;
    match key.more {
        None => Ok(()),
        Some(more) => write!(out, ", {more}"),
    }
}
