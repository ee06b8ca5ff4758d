//! A row: a plan, the steps of a host at its bus with what each reports, and the trace.

use super::step::{Step, told};
use std::alloc::{AllocError, Global};
use std::process::Abort;
use std::str;
use std::test::Fail;
use usb_sim::{Damage, Harm, SimBus, Trace};
use usb_testbus::{bus_of, trace_of};

/// A step and what it reports.
pub(super) type Told<'a> = (Step, &'a str);

#[derive(Clone, Copy)]
pub(super) struct Row {
    pub(super) about: &'static str,
    /// The tables of the plan, but for its damages.
    pub(super) plan: &'static [&'static str],
    pub(super) damages: &'static [Damage],
    /// The first steps, which rows share.
    pub(super) opening: &'static [Told<'static>],
    pub(super) steps: &'static [Told<'static>],
    /// The parts of the trace.
    pub(super) trace: &'static [&'static str],
}

/// Compares what each row went like with its trace.
pub(super) fn check(rt: &impl Abort, alloc: Global, rows: &[Row]) -> Result<(), Fail> {
    for row in rows {
        let trace = joined(alloc, row.trace)?;
        assert_eq!(rt;
            row_went(alloc, row)?.as_str(),
            trace.as_str(),
            "{}",
            row.about
        );
    }
    Ok(())
}

/// What the row went like, to be compared with its trace.
fn row_went(alloc: Global, row: &Row) -> Result<String, Fail> {
    went(alloc, row.plan, row.damages, row.opening, row.steps)
}

/// What the steps reported otherwise than expected, and then the trace.
pub(super) fn went(
    alloc: Global,
    plan: &[&str],
    damages: &[Damage],
    opening: &[Told<'_>],
    steps: &[Told<'_>],
) -> Result<String, Fail> {
    let text = plan_text(alloc, plan, damages)?;
    let mut bus = bus_of(alloc, text.as_str())?;
    let words = otherwise(alloc, &mut bus, opening, steps);
    let trace = trace_of(bus);
    let mut all = words?;
    all.push_str(str::from_utf8(trace.as_slice())?)?;
    Ok(all)
}

/// What the steps at the bus of a plan's text reported otherwise than expected.
pub(super) fn went_otherwise(
    alloc: Global,
    text: &str,
    opening: &[Told<'_>],
    steps: &[Told<'_>],
) -> Result<String, Fail> {
    let mut bus = bus_of(alloc, text)?;
    let words = otherwise(alloc, &mut bus, opening, steps);
    trace_of(bus);
    Ok(words?)
}

/// Does the steps, and reports which of them reported otherwise than expected.
pub(super) fn otherwise<T: Trace>(
    alloc: Global,
    bus: &mut SimBus<T>,
    opening: &[Told<'_>],
    steps: &[Told<'_>],
) -> Result<String, AllocError> {
    let mut all = String::new(alloc);
    push_otherwise(alloc, &mut all, bus, opening)?;
    push_otherwise(alloc, &mut all, bus, steps)?;
    Ok(all)
}

fn push_otherwise<T: Trace>(
    alloc: Global,
    all: &mut String,
    bus: &mut SimBus<T>,
    steps: &[Told<'_>],
) -> Result<(), AllocError> {
    for (step, wanted) in steps {
        let words = told(alloc, bus, *step)?;
        if words.as_str() != *wanted {
            writeln!(all, "{} and not {}", words.as_str(), *wanted)?;
        }
    }
    Ok(())
}

/// The parts one after the other.
pub(super) fn joined(alloc: Global, parts: &[&str]) -> Result<String, AllocError> {
    let mut all = String::new(alloc);
    for part in parts {
        all.push_str(part)?;
    }
    Ok(all)
}

/// The text of a plan of these tables and damages.
pub(super) fn plan_text(
    alloc: Global,
    tables: &[&str],
    damages: &[Damage],
) -> Result<String, AllocError> {
    let mut text = joined(alloc, tables)?;
    for damage in damages {
        push_damage(&mut text, *damage)?;
    }
    Ok(text)
}

/// Adds the table of a damage.
fn push_damage(text: &mut String, damage: Damage) -> Result<(), AllocError> {
    write!(
        text,
        "\n[[damage]]\nattempt = {}\npacket = {}\n",
        damage.attempt, damage.packet
    )?;
    match damage.harm {
        Harm::Lose => text.push_str("how = \"lose\"\n"),
        Harm::LosePre => text.push_str("how = \"pre\"\n"),
        Harm::Flip(bit) => write!(text, "how = \"flip\"\nbit = {bit}\n"),
    }
}
