//! The configurations of a device: each is read, and one is chosen.
ghost use Rattle.std.specs.Prelude.{◌≡◌, ◌≤◌, ◌<◌, ◌*◌, ℕ, Option, length, false, true, IfSome, MatchResult};
ghost use Rattle.usb_request.specs.Codes.{CONFIGURATION_LENGTH};
ghost use Rattle.usb_transfer.specs.Transactions.{IsTarget};
ghost use Rattle.usb_enum.specs.Bounds.{read_bound, configuration_bound, texts_bound};
ghost use Rattle.usb_enum.specs.Parts.{Answered, Read, StopsRead, StopsText, StopsTexts};
ghost use Rattle.usb_enum.specs.Verdicts.{config_fault, is_over};
ghost use Rattle.usb_enum.specs.Readings.{HasTotal, HasConfiguration, HasConfigurations};
ghost use Rattle.usb_enum.specs.Reasons.{HeadRead, TextRead, TextsAsked};
ghost use Rattle.usb_enum.specs.Text.{ValuesDiffer, choice_of, texts_length};
ghost use Rattle.usb_enum.specs.TextLengths.{IsAnswered, ReadsText, FewFor};
ghost use Rattle.usb_enum.specs.Stops.{IsPlainStop};

use crate::options::{is_over, left_of};
use crate::stop::{Stop, answered_or};
use crate::{Cause, ConfigText, ConfigTexts, Request};
use std::alloc::Global;
use usb_bus::Bus;
use usb_descriptor::config_head;
use usb_hub::get_config;
use usb_request::descriptor_length::CONFIGURATION_LENGTH;
use usb_transfer::Target;

/// How many bytes of a configuration are asked for before all of it.
const HEAD: u16 = CONFIGURATION_LENGTH as u16;

/// wTotalLength of the configuration of an index, from its first nine bytes.
#[tactic(auto, using(usb_transfer::proofs::Interface::bound_wide))]
fn total_length<B: Bus>(alloc: Global, bus: &mut B, target: Target, index: u8) -> Result<u16, Stop>
    requires target { IsTarget target }
    requires max { 8 ≤ target.max }
    ensures fits { MatchResult result
        (λ total. (CONFIGURATION_LENGTH ≤ total) × (total ≤ 65535)) IsPlainStop }
    ensures read { (room : Option ℕ) → Read B.modelled B.world B.trace B.spent B.ports B.failed
        (read_bound CONFIGURATION_LENGTH)
        (Answered target (λ old new total. HeadRead target index total old new
        × IsAnswered target new) (HasTotal index))
        (StopsRead target (λ spec. config_fault room spec index)) bus.old result bus.new }
{
    let stalled = Cause::Stalled(Request::Config);
    let head = answered_or(stalled, get_config(alloc, bus, target, index, HEAD))?;
    match config_head(head.as_slice()) {
        Ok(total) => Ok(total),
        Err(_) => Err(Stop::Refused(Cause::BadConfiguration(index))),
    }
}

/// The configuration text of an index. It is read whole only if it fits what is left.
#[tactic(auto, using(usb_transfer::proofs::Interface::bound_wide))]
fn read_text<B: Bus>(
    alloc: Global,
    bus: &mut B,
    target: Target,
    index: u8,
    room: Option<usize>,
) -> Result<ConfigText, Stop>
    requires target { IsTarget target }
    requires max { 8 ≤ target.max }
    ensures fits { MatchResult result (λ text. is_over room (length text) ≡ false) IsPlainStop }
    ensures read { Read B.modelled B.world B.trace B.spent B.ports B.failed
        configuration_bound (Answered target (λ old new text. TextRead target index text old new)
        (HasConfiguration room index)) (StopsText room target index) bus.old result bus.new }
    ensures count { B.modelled ≡ true
        → ReadsText target index (B.world bus.old) result (B.world bus.new) }
{
    let total = total_length(alloc, bus, target, index)?;
    if is_over(room, total) {
        return Err(Stop::Refused(Cause::TooLarge));
    }
    let stalled = Cause::Stalled(Request::Config);
    let bytes = answered_or(stalled, get_config(alloc, bus, target, index, total))?;
    match ConfigText::new(bytes) {
        Some(text) => Ok(text),
        None => Err(Stop::Refused(Cause::BadConfiguration(index))),
    }
}

/// The configurations of a device that has this number of them. No two of them have the same value,
/// and all of them together have at most the bytes of the budget.
pub(crate) fn read_configurations<B: Bus>(
    alloc: Global,
    bus: &mut B,
    target: Target,
    count: u8,
    budget: Option<usize>,
) -> Result<ConfigTexts, Stop>
    requires target { IsTarget target }
    requires max { 8 ≤ target.max }
    ensures all { MatchResult result
        (λ texts. (length texts ≡ count) × ValuesDiffer texts
        × (is_over budget (texts_length texts) ≡ false)) IsPlainStop }
    ensures read { Read B.modelled B.world B.trace B.spent B.ports B.failed
        (255 * configuration_bound)
        (Answered target (λ old new texts. TextsAsked target old texts new)
        (HasConfigurations budget count)) (StopsTexts budget target count) bus.old result bus.new }
    ensures few { B.modelled ≡ true
        → FewFor texts_bound target (B.world bus.old) (B.world bus.new) }
{
    let mut texts = ConfigTexts::new(alloc);
    let mut room = budget;
    for index in 0..count {
        let text = read_text(alloc, bus, target, index, room)?;
        if texts.has_value(text.value()) {
            return Err(Stop::Refused(Cause::BadConfiguration(index)));
        }
        room = left_of(room, text.as_slice().len());
        texts.push(text)?;
    }
    Ok(texts)
}

/// The index of the first configuration that needs no more than the supply, in mA.
pub(crate) fn choose_configuration(texts: &ConfigTexts, supply: u16) -> Option<usize>
    ensures chosen { result ≡ choice_of supply texts.now }
    ensures inside { IfSome result (λ i. i < length texts.now) }
{
    texts
        .as_slice()
        .iter()
        .position(|text| text.need() <= supply)
}
