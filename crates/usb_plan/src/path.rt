//! The key `path` of an event.

ghost use Rattle.std.specs.Prelude.{◌≡◌, option_map};
ghost use Rattle.toml.specs.View.{view};
ghost use Rattle.usb_plan.specs.Path.{has_numbers_of, read_path, free_path, taken_path};

use crate::entry_fault::EntryFault;
use crate::hub::most_ports;
use crate::scene::Scene;
use crate::value::read_text;
use toml::Value;
use usb_port::PortPath;

/// Whether each number of the path is one that a port of a hub may have.
#[tactic(auto, unfolding(crate::specs::Path::has_numbers_of))]
fn has_numbers_of(wide: bool, path: &PortPath) -> bool
    ensures { result ≡ has_numbers_of wide path.now }
{
    let most = most_ports(wide);
    path.numbers().iter().all(|number| *number <= most)
}

/// The path that the value spells; its first number is a root port's, and one above 7 goes with wide hubs alone.
#[tactic(auto, unfolding(crate::specs::Path::read_path))]
pub(crate) fn read_path(scene: &Scene<'_>, value: Option<&Value>) -> Result<PortPath, EntryFault>
    ensures { result ≡ read_path scene.now (option_map (λ v. view v.now) value.entry) }
{
    let path = PortPath::from_text(read_text(value)?).ok_or(EntryFault::BadPath)?;
    if scene.is_rooted(&path) && has_numbers_of(scene.wide_hubs(), &path) {
        Ok(path)
    } else {
        Err(EntryFault::BadPath)
    }
}

/// A path where a device can be plugged.
#[tactic(auto, unfolding(crate::specs::Path::free_path))]
pub(crate) fn free_path(
    scene: &Scene<'_>,
    path: Result<PortPath, EntryFault>,
) -> Result<PortPath, EntryFault>
    ensures { result ≡ free_path scene.now path }
{
    let path = path?;
    if !scene.has_port(&path) {
        Err(EntryFault::BadPath)
    } else if scene.is_taken(&path) {
        Err(EntryFault::PortTaken)
    } else {
        Ok(path)
    }
}

/// A path where a device is plugged.
#[tactic(auto, unfolding(crate::specs::Path::taken_path))]
pub(crate) fn taken_path(
    scene: &Scene<'_>,
    path: Result<PortPath, EntryFault>,
) -> Result<PortPath, EntryFault>
    ensures { result ≡ taken_path scene.now path }
{
    let path = path?;
    if scene.is_taken(&path) {
        Ok(path)
    } else {
        Err(EntryFault::PortEmpty)
    }
}
