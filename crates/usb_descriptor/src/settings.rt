//! Which alternate setting each interface of a device has (sections 9.1.1.5, 9.2.3).

use std::marker::Model;

/// The alternate setting of each interface, by its number.
#[derive(Clone, Copy, Debug)]
pub struct Settings {
    row: [u8; 256],
}

impl Model for Settings {
    ghost use Rattle.std.specs.Prelude.{◌≡◌, List, ℕ, length};

    ghost Value = { List ℕ };

    ghost view = { λ s. s.row };

    ghost invariant = { λ s. length s.row ≡ 256 };

    ghost inverse = { λ row. record { row = row } };
}

impl Settings {
    ghost use Rattle.std.specs.Prelude.{◌≡◌};
    ghost use Rattle.usb_descriptor.specs.Settings.{default_settings, setting_of, with_setting};

    /// Each interface has setting 0, as in a device that was just configured.
    #[tactic(auto, unfolding(crate::specs::Settings::default_settings))]
    pub fn all_zero() -> Self
        ensures { result ≡ default_settings }
    {
        Settings { row: [0; 256] }
    }

    /// The setting of an interface.
    pub fn get(&self, interface: u8) -> u8
        ensures { result ≡ setting_of self.now interface }
    {
        self.row[usize::from(interface)]
    }

    /// The interface has another setting from here on.
    pub fn set(&mut self, interface: u8, setting: u8)
        ensures { self.new ≡ with_setting interface setting self.old }
    {
        self.row[usize::from(interface)] = setting;
    }
}
