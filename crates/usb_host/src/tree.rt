//! A copy of what is known of the ports.
use std::marker::Model;
use usb_enum::Finding;
use usb_port::PortPath;

/// What was found at each port, by rising path.
#[derive(Debug, Drop)]
pub struct Tree {
    entries: Vec<(PortPath, Finding)>,
}

impl Model for Tree {
    ghost use Rattle.usb_table.specs.TableEntries.{Entries, Rises};

    ghost Value = { Entries };

    ghost view = { λ t. t.entries.items };

    ghost invariant = { λ t. Rises t.entries.items };
}

impl Tree {
    ghost use Rattle.std.specs.Prelude.{◌≡◌};
    ghost use Rattle.usb_table.specs.TableEntries.{Rises};

    /// The tree of these entries, by rising path.
    pub(crate) fn new(entries: Vec<(PortPath, Finding)>) -> Self
        requires { Rises entries.items }
        ensures { result ≡ entries.items }
    {
        Tree { entries }
    }

    /// The entries, each a path and what was found there.
    pub fn entries(&self) -> &[(PortPath, Finding)]
        ensures value { result.now ≡ self.now }
        ensures rising { Rises self.now }
    {
        self.entries.as_slice()
    }
}
