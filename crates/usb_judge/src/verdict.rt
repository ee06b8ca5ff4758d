//! The verdict.
ghost use Rattle.std.specs.Prelude.{◌≡◌, ◌++◌, IfOk, OnOk, flat_map};
ghost use Rattle.usb_judge.specs.Scenes.{scene_in};
ghost use Rattle.usb_judge.specs.Verdicts.{told_at, told_for, told_lack};
ghost use Rattle.usb_judge.specs.Judgements.{Judges, RisesByPath};

use crate::judgement::{Cause, Judgement};
use crate::listed::ListedPort;
use crate::plugged::PluggedDevice;
use crate::rules::{breaks, is_missing};
use std::alloc::{AllocError, Global};

/// The causes of a port that is listed.
const CAUSES: [Cause; 12] = [
    Cause::Twice,
    Cause::NotPlugged,
    Cause::NoHub,
    Cause::SameAddress,
    Cause::Disabled,
    Cause::OtherDescriptor,
    Cause::OtherSpeed,
    Cause::OtherAddress,
    Cause::OtherConfiguration,
    Cause::OtherPorts,
    Cause::TooMuchPower,
    Cause::LeftEnabled,
];

/// What is wrong with a listing, where these devices are plugged: nothing if it is right. If a path
/// is that of several devices, the first of them counts.
///
/// The judgements are in the order of paths, and those of one path in the order of causes.
///
/// # Errors
///
/// Memory was refused.
pub fn judge(
    alloc: Global,
    plugged: &[PluggedDevice<'_>],
    listing: &[ListedPort],
) -> Result<Vec<Judgement>, AllocError>
    ensures verdict { IfOk result (λ v. Judges (scene_in plugged.now) listing.now v.items) }
    ensures order { IfOk result (λ v. RisesByPath v.items) }
{
    let mut judgements = Vec::new(alloc);
    judge_ports(&mut judgements, plugged, listing)?;
    judge_rest(&mut judgements, plugged, listing)?;
    judgements.sort()?;
    Ok(judgements)
}

/// Adds what is wrong with the ports that are listed.
fn judge_ports(
    judgements: &mut Vec<Judgement>,
    plugged: &[PluggedDevice<'_>],
    listing: &[ListedPort],
) -> Result<(), AllocError>
    ensures { OnOk result (judgements.new.items ≡ judgements.old.items
        ++ flat_map (told_at (scene_in plugged.now) listing.now) listing.now) }
{
    'ports: for port in listing {
        judge_port(judgements, plugged, listing, port, &CAUSES)?;
    }
    Ok(())
}

/// Adds what is wrong with a port, of these causes.
#[tactic(auto, unfolding(crate::specs::Verdicts::told_for))]
fn judge_port(
    judgements: &mut Vec<Judgement>,
    plugged: &[PluggedDevice<'_>],
    listing: &[ListedPort],
    port: &ListedPort,
    causes: &[Cause],
) -> Result<(), AllocError>
    ensures { OnOk result (judgements.new.items ≡ judgements.old.items
        ++ told_for (scene_in plugged.now) listing.now port.now causes.now) }
{
    let Some((cause, rest)) = causes.split_first() else {
        return Ok(());
    };
    if breaks(plugged, listing, port, *cause) {
        judgements.push(Judgement {
            path: port.path.duplicate(),
            cause: *cause,
        })?;
    }
    judge_port(judgements, plugged, listing, port, rest)
}

/// Adds the devices that are not listed, and are to be.
fn judge_rest(
    judgements: &mut Vec<Judgement>,
    plugged: &[PluggedDevice<'_>],
    listing: &[ListedPort],
) -> Result<(), AllocError>
    ensures { OnOk result (judgements.new.items ≡ judgements.old.items
        ++ flat_map (told_lack listing.now) plugged.now) }
{
    'devices: for device in plugged {
        judge_device(judgements, device, listing)?;
    }
    Ok(())
}

/// Adds a device, if it is not listed and is to be.
fn judge_device(
    judgements: &mut Vec<Judgement>,
    device: &PluggedDevice<'_>,
    listing: &[ListedPort],
) -> Result<(), AllocError>
    ensures { OnOk result (judgements.new.items
        ≡ judgements.old.items ++ told_lack listing.now device.now) }
{
    if is_missing(listing, &device.path) {
        judgements.push(Judgement {
            path: device.path.duplicate(),
            cause: Cause::Missing,
        })?;
    }
    Ok(())
}
