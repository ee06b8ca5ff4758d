//! The key `do` of an event: its words, and of each the keys that go with it, and what it does.

ghost use Rattle.std.specs.Prelude.{◌≡◌, option_map};
ghost use Rattle.toml.specs.View.{view};
ghost use Rattle.usb_plan.specs.EntryFault.{EqualUnless};
ghost use Rattle.usb_plan.specs.EventMembers.{found};
ghost use Rattle.usb_plan.specs.Verb.{verb_named, verb_at, other_keys, action_of};
ghost use Rattle.usb_plan.specs.declared.entry_fault.EntryFault.TheVariants.{Memory};

use crate::action::{
    OtherKeys, clear_of, control_of, interface_of, interrupt_of, look_of, plug_of, receive_of,
    send_of, show_of, unplug_of,
};
use crate::entry_fault::EntryFault;
use crate::members::EventMembers;
use crate::scene::Scene;
use crate::value::read_text;
use std::alloc::Global;
use toml::Value;
use usb_world::{Action, Ask};

/// What an event does.
#[derive(Clone, Copy)]
pub(crate) enum Verb {
    Plug,
    Unplug,
    Show,
    Send,
    Receive,
    Clear,
    Control,
    Look,
    News,
    Interrupt,
    Interface,
}

/// The verb of this word; `BadValue` if it is none.
#[tactic(auto, unfolding(crate::specs::Verb::verb_named))]
fn verb_named(text: &str) -> Result<Verb, EntryFault>
    ensures { result ≡ verb_named text.now }
{
    match text {
        "plug" => Ok(Verb::Plug),
        "unplug" => Ok(Verb::Unplug),
        "show" => Ok(Verb::Show),
        "send" => Ok(Verb::Send),
        "receive" => Ok(Verb::Receive),
        "clear" => Ok(Verb::Clear),
        "control" => Ok(Verb::Control),
        "look" => Ok(Verb::Look),
        "news" => Ok(Verb::News),
        "interrupt" => Ok(Verb::Interrupt),
        "interface" => Ok(Verb::Interface),
        _ => Err(EntryFault::BadValue),
    }
}

/// The key `do`.
#[tactic(auto, unfolding(crate::specs::Verb::verb_at))]
pub(crate) fn verb_at(value: Option<&Value>) -> Result<Verb, EntryFault>
    ensures { result ≡ verb_at (option_map (λ v. view v.now) value.entry) }
{
    verb_named(read_text(value)?)
}

/// The keys that go with `do` and `after`.
#[tactic(auto, unfolding(crate::specs::Verb::other_keys))]
pub(crate) fn other_keys(verb: Verb) -> OtherKeys
    ensures { result ≡ other_keys verb }
{
    match verb {
        Verb::Plug => OtherKeys::PathDevice,
        Verb::Unplug => OtherKeys::Path,
        Verb::Show => OtherKeys::Said,
        Verb::Send => OtherKeys::PathBytes,
        Verb::Receive => OtherKeys::PathPackets,
        Verb::Clear => OtherKeys::PathEndpoint,
        Verb::Control => OtherKeys::PathSetup,
        Verb::Look => OtherKeys::Path,
        Verb::News => OtherKeys::Alone,
        Verb::Interrupt => OtherKeys::PathEndpoint,
        Verb::Interface => OtherKeys::PathSetting,
    }
}

/// What the event of a table does in the scene.
#[tactic(auto, unfolding(crate::specs::Verb::action_of))]
pub(crate) fn action_of(
    alloc: Global,
    verb: Verb,
    scene: &Scene<'_>,
    members: &EventMembers<'_>,
) -> Result<Action, EntryFault>
    ensures { EqualUnless Memory result (action_of verb scene.now (found members.now)) }
{
    match verb {
        Verb::Plug => plug_of(scene, members),
        Verb::Unplug => unplug_of(scene, members),
        Verb::Show => show_of(members),
        Verb::Send => send_of(alloc, scene, members),
        Verb::Receive => receive_of(scene, members),
        Verb::Clear => clear_of(scene, members),
        Verb::Control => control_of(alloc, scene, members),
        Verb::Look => look_of(scene, members),
        Verb::News => Ok(Action::Ask(Ask::News)),
        Verb::Interrupt => interrupt_of(scene, members),
        Verb::Interface => interface_of(scene, members),
    }
}
