//! The values at the keys of an event, found in one walk over its table.

ghost use Rattle.std.specs.Prelude.{◌≡◌};
ghost use Rattle.toml.specs.View.{view, table_view};
ghost use Rattle.usb_plan.specs.EventMembers.{event_values, found, with_value};

use toml::{Table, Value};

/// What is at each key that an event may have.
#[derive(Drop)]
pub(crate) struct EventMembers<'a> {
    /// The key `do`.
    pub verb: Option<&'a Value>,
    pub after: Option<&'a Value>,
    pub path: Option<&'a Value>,
    pub device: Option<&'a Value>,
    pub bytes: Option<&'a Value>,
    pub packets: Option<&'a Value>,
    pub setup: Option<&'a Value>,
    pub endpoint: Option<&'a Value>,
    pub interface: Option<&'a Value>,
    pub setting: Option<&'a Value>,
    pub said: Option<&'a Value>,
    /// Whether there is any other key.
    pub has_others: bool,
}

impl<'a> EventMembers<'a> {
    /// Those of a table.
    pub(crate) fn of(table: &'a Table) -> Self
        ensures { found result ≡ event_values (table_view table.now) }
    {
        let mut members = EventMembers {
            verb: None,
            after: None,
            path: None,
            device: None,
            bytes: None,
            packets: None,
            setup: None,
            endpoint: None,
            interface: None,
            setting: None,
            said: None,
            has_others: false,
        };
        'entries: for (key, value) in table.iter() {
            members.put(key.as_str(), value);
        }
        members
    }

    /// Keeps the value at a key.
    #[tactic(auto, unfolding(crate::specs::EventMembers::with_value))]
    fn put(&mut self, key: &str, value: &'a Value)
        ensures { found self.new ≡ with_value key.now (view value.now) (found self.old) }
    {
        match key {
            "do" => self.verb = Some(value),
            "path" => self.path = Some(value),
            "device" => self.device = Some(value),
            "after" => self.after = Some(value),
            "bytes" => self.bytes = Some(value),
            "packets" => self.packets = Some(value),
            "setup" => self.setup = Some(value),
            "endpoint" => self.endpoint = Some(value),
            "interface" => self.interface = Some(value),
            "setting" => self.setting = Some(value),
            "said" => self.said = Some(value),
            _ => self.has_others = true,
        }
    }
}
