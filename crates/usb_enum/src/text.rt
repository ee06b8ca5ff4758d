//! Texts of configurations and strings, as lists.
ghost use Rattle.std.specs.Prelude.{◌≡◌, ◌<◌, ◌≤◌, ◌++◌, [], ◌∷◌, length, OnOk, OnErr, IfOk, IfSome};
ghost use Rattle.usb_descriptor.specs.Choice.{IsUsable, status_endpoint_of, bulk_out_of, bulk_in_of};
ghost use Rattle.usb_descriptor.specs.Config.{HasConfig, configuration_value};
ghost use Rattle.usb_enum.specs.Text.{config_text_of, any_has_value, need_of};

use std::alloc::{AllocError, Global};
use std::marker::Model;
use usb_descriptor::{ConfigView, read_config};

/// A configuration text: nine bytes of the configuration descriptor, then whole items (9.6.3).
#[derive(Debug, Drop)]
pub struct ConfigText {
    bytes: Vec<u8>,
}

impl Model for ConfigText {
    ghost use Rattle.std.specs.Prelude.{List, ℕ};
    ghost use Rattle.usb_descriptor.specs.Config.{HasConfig};

    ghost Value = { List ℕ };

    ghost view = { λ t. t.bytes.items };

    ghost invariant = { λ t. HasConfig t.bytes.items };
}

impl ConfigText {
    /// The text, or `None` if the bytes are no configuration text.
    pub(crate) fn new(bytes: Vec<u8>) -> Option<ConfigText>
        ensures { result ≡ config_text_of bytes.items }
    {
        if read_config(bytes.as_slice()).is_err() {
            return None;
        }
        Some(ConfigText { bytes })
    }

    /// The bytes of the text.
    pub fn as_slice(&self) -> &[u8]
        ensures value { result.now ≡ self.now }
        ensures text { HasConfig self.now }
    {
        self.bytes.as_slice()
    }

    /// The configuration that the bytes are.
    fn view(&self) -> ConfigView<'_>
        ensures { result ≡ self.now }
    {
        ConfigView::known(self.bytes.as_slice())
    }

    /// bConfigurationValue, by which SET_CONFIGURATION names the configuration.
    pub fn value(&self) -> u8
        ensures { result ≡ configuration_value self.now }
    {
        self.view().value()
    }

    /// What the configuration needs, in mA: twice bMaxPower.
    pub fn need(&self) -> u16
        ensures { result ≡ need_of self.now }
    {
        2 * u16::from(self.view().max_power())
    }

    /// The number and the maximum packet of the status endpoint of a hub (11.12.1). It is endpoint 1
    /// where there is one; else, where `wide`, the first interrupt IN endpoint (11.23.1).
    pub fn status_endpoint(&self, wide: bool) -> Option<(u8, u8)>
        ensures value { result ≡ status_endpoint_of wide self.now }
        ensures usable { IfSome result IsUsable }
    {
        self.view().status_endpoint(wide)
    }

    /// The number and the maximum packet of the first bulk OUT endpoint (5.8).
    pub fn bulk_out(&self) -> Option<(u8, u8)>
        ensures value { result ≡ bulk_out_of self.now }
        ensures usable { IfSome result IsUsable }
    {
        self.view().bulk_out()
    }

    /// The number and the maximum packet of the first bulk IN endpoint (5.8).
    pub fn bulk_in(&self) -> Option<(u8, u8)>
        ensures value { result ≡ bulk_in_of self.now }
        ensures usable { IfSome result IsUsable }
    {
        self.view().bulk_in()
    }

    /// A second text of the same bytes.
    ///
    /// # Errors
    ///
    /// Memory was refused.
    pub fn try_clone(&self, alloc: Global) -> Result<ConfigText, AllocError>
        ensures { IfOk result (λ text. text ≡ self.now) }
    {
        let bytes = Vec::from_slice(alloc, self.bytes.as_slice())?;
        Ok(ConfigText { bytes })
    }
}

/// The configuration texts of a device, by their index.
#[derive(Debug, Drop)]
pub struct ConfigTexts {
    texts: Vec<ConfigText>,
}

impl Model for ConfigTexts {
    ghost use Rattle.std.specs.Prelude.{List, ℕ};

    ghost Value = { List (List ℕ) };

    ghost view = { λ c. c.texts.items };
}

impl ConfigTexts {
    /// No texts.
    pub(crate) fn new(alloc: Global) -> Self
        ensures { result ≡ [] }
    {
        ConfigTexts {
            texts: Vec::new(alloc),
        }
    }

    /// Adds the text of the next index.
    pub(crate) fn push(&mut self, text: ConfigText) -> Result<(), AllocError>
        ensures ok { OnOk result (self.new ≡ self.old ++ text ∷ []) }
        ensures err { OnErr result (self.new ≡ self.old) }
    {
        Ok(self.texts.push(text)?)
    }

    /// The texts, by their index.
    pub fn as_slice(&self) -> &[ConfigText]
        ensures { result.now ≡ self.now }
    {
        self.texts.as_slice()
    }

    /// Second texts of the same bytes.
    ///
    /// # Errors
    ///
    /// Memory was refused.
    pub fn try_clone(&self, alloc: Global) -> Result<ConfigTexts, AllocError>
        ensures { IfOk result (λ texts. texts ≡ self.now) }
    {
        let mut texts = Vec::new(alloc);
        for text in &self.texts {
            texts.push(text.try_clone(alloc)?)?;
        }
        Ok(ConfigTexts { texts })
    }

    /// Whether one of them has this bConfigurationValue.
    pub(crate) fn has_value(&self, value: u8) -> bool
        ensures { result ≡ any_has_value value self.now }
    {
        self.texts.iter().any(|text| text.value() == value)
    }
}

/// The 16-bit units of a string (9.6.7), at most 126 of them.
#[derive(Debug, Drop)]
pub struct StringUnits {
    units: Vec<u16>,
}

impl Model for StringUnits {
    ghost use Rattle.std.specs.Prelude.{List, ℕ, ◌≤◌, length};

    ghost Value = { List ℕ };

    ghost view = { λ s. s.units.items };

    ghost invariant = { λ s. length s.units.items ≤ 126 };
}

impl StringUnits {
    /// The units of a string, at most 126: bLength is a byte (9.6.7).
    pub(crate) fn new(units: Vec<u16>) -> Self
        requires { length units.items ≤ 126 }
        ensures { result ≡ units.items }
    {
        StringUnits { units }
    }

    /// The units, in order.
    pub fn as_slice(&self) -> &[u16]
        ensures value { result.now ≡ self.now }
        ensures few { length self.now ≤ 126 }
    {
        self.units.as_slice()
    }

    /// A second string of the same units.
    ///
    /// # Errors
    ///
    /// Memory was refused.
    pub fn try_clone(&self, alloc: Global) -> Result<StringUnits, AllocError>
        ensures { IfOk result (λ units. units ≡ self.now) }
    {
        let units = Vec::from_slice(alloc, self.units.as_slice())?;
        Ok(StringUnits { units })
    }
}
