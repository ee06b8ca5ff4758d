//! What is plugged where, while the events of a plan are read.

ghost use Rattle.std.specs.Prelude.{◌≡◌, nat_eq};
ghost use Rattle.std.specs.List.{starts_with};

use std::alloc::{AllocError, Global};
use std::collections::BTreeMap;
use std::marker::Model;
use usb_port::PortPath;
use usb_world::{Action, Change};

/// The devices that are plugged, by their index among the plan's devices, at their paths.
#[derive(Drop)]
pub(crate) struct Plugged {
    places: BTreeMap<PortPath, usize>,
}

impl Model for Plugged {
    ghost use Rattle.usb_world.specs.PluggedDevices.{PluggedMap};

    ghost Value = { PluggedMap };

    ghost view = { λ p. p.places.entries };
}

impl Plugged {
    ghost use Rattle.std.specs.Prelude.{◌≡◌, [], OnOk};
    ghost use Rattle.usb_world.specs.PluggedDevices.{index_at, plugged_without, plugged_after};
    ghost use Rattle.usb_plan.specs.Plugged.{first_through};

    /// Nothing is plugged.
    pub(crate) fn new(alloc: Global) -> Self
        ensures { result ≡ [] }
    {
        Plugged {
            places: BTreeMap::new(alloc),
        }
    }

    /// The device plugged at the path.
    pub(crate) fn device_at(&self, path: &PortPath) -> Option<usize>
        ensures { result ≡ index_at self.now path.now }
    {
        self.places.get(path).copied()
    }

    /// The first place at the path or below it. They are together, from the path on.
    fn first_through(&self, path: &PortPath) -> Option<PortPath>
        ensures { result ≡ first_through path.now self.now }
    {
        let (place, _) = self.places.range(path.duplicate()..).next()?;
        if goes_through(place, path) {
            Some(place.duplicate())
        } else {
            None
        }
    }

    /// Unplugs the device at the path and all below it. The time that it takes depends on what is
    /// unplugged, and hardly on how much is plugged.
    #[tactic(auto, using(crate::proofs::Places::none_unplugged, crate::proofs::Places::one_unplugged, crate::proofs::Places::one_there))]
    fn unplug(&mut self, path: &PortPath)
        ensures { self.new ≡ plugged_without path.now self.old }
    {
        'places: while let Some(place) = self.first_through(path) {
            self.places.remove(&place);
        }
    }

    /// Has the action change what is plugged.
    ///
    /// # Errors
    ///
    /// Memory was refused.
    pub(crate) fn apply(&mut self, action: &Action) -> Result<(), AllocError>
        ensures { OnOk result (self.new ≡ plugged_after action.now self.old) }
    {
        match action {
            Action::Change(Change::Plug(path, device)) => {
                self.places.insert(path.duplicate(), *device)?;
            }
            Action::Change(Change::Unplug(path)) => self.unplug(path),
            Action::Ask(_) => {}
        }
        Ok(())
    }
}

/// Whether the place is at the path or below it.
fn goes_through(place: &PortPath, path: &PortPath) -> bool
    ensures { result ≡ starts_with nat_eq place.now path.now }
{
    place.numbers().starts_with(path.numbers())
}
