//! The keys under which entries are kept, by path and by address.
ghost use Rattle.std.specs.Prelude.{◌≡◌, Some, None, IfSome, IfNone, IsSome, OnOk, OnErr};
ghost use Rattle.std.specs.Prelude.{false, true};
ghost use Rattle.std.specs.List.{list_any};
ghost use Rattle.usb_table.specs.TableEntries.{is_at_or_below};
ghost use Rattle.usb_table.specs.Keys.{key_of_path, key_of_address};
ghost use Rattle.usb_table.specs.Keys.{with_address, without_address, UpdatesAddress, Enters};

use std::alloc::{AllocError, Global};
use std::collections::BTreeMap;
use usb_port::PortPath;

/// The keys under which entries are kept.
#[derive(Debug, Drop)]
pub(crate) struct Indexes {
    /// Of each entry.
    pub by_path: BTreeMap<PortPath, usize>,
    /// Of each entry that has an address.
    pub by_address: BTreeMap<u8, usize>,
}

impl Indexes {
    /// Enters a key under a path, and under an address where there is one. Where memory is
    /// refused, it enters neither.
    ///
    /// # Errors
    ///
    /// Memory was refused, and neither is entered.
    #[tactic(auto, using(crate::proofs::entries::Keys::taken_back))]
    pub fn insert(
        &mut self,
        path: PortPath,
        address: Option<u8>,
        key: usize,
    ) -> Result<(), AllocError>
        requires { IfSome address (λ a. key_of_address self.old.by_address.entries a ≡ None) }
        ensures ok { OnOk result (Enters path address key self.old self.new) }
        ensures paths { OnErr result (self.new.by_path.entries ≡ self.old.by_path.entries) }
        ensures addresses { OnErr result
            (self.new.by_address.entries ≡ self.old.by_address.entries) }
    {
        self.insert_address(address, key)?;
        let inserted = self.by_path.insert(path, key);
        if inserted.is_err() {
            self.remove_address(address);
        }
        inserted?;
        Ok(())
    }

    /// Adds the key of a device under its address, if it has one. If memory is refused, the index
    /// stays as it was.
    fn insert_address(&mut self, address: Option<u8>, key: usize) -> Result<(), AllocError>
        ensures paths { self.new.by_path ≡ self.old.by_path }
        ensures ok { OnOk result (self.new.by_address.entries
            ≡ with_address address key self.old.by_address.entries) }
        ensures keys { OnOk result (UpdatesAddress address (Some key)
            self.old.by_address.entries self.new.by_address.entries) }
        ensures err { OnErr result (self.new.by_address.entries ≡ self.old.by_address.entries) }
    {
        if let Some(address) = address {
            self.by_address.insert(address, key)?;
        }
        Ok(())
    }

    /// Takes out the key of an address, if there is one.
    pub fn remove_address(&mut self, address: Option<u8>)
        ensures paths { self.new.by_path ≡ self.old.by_path }
        ensures entries { self.new.by_address.entries
            ≡ without_address address self.old.by_address.entries }
        ensures keys { UpdatesAddress address None
            self.old.by_address.entries self.new.by_address.entries }
    {
        if let Some(address) = address {
            self.by_address.remove(&address);
        }
    }

    /// The least path at or below a path that has a key.
    pub fn first_at(&self, path: &PortPath) -> Option<PortPath>
        ensures some { IfSome result (λ first. is_at_or_below first path.now ≡ true) }
        ensures found { IfSome result
            (λ first. IsSome (key_of_path self.now.by_path.entries first)) }
        ensures none { IfNone result
            (list_any (λ e. is_at_or_below e.0 path.now) self.now.by_path.entries ≡ false) }
    {
        if self.by_path.is_empty() {
            return None;
        }
        let (first, _) = self.by_path.range(path.duplicate()..).next()?;
        if !is_at_or_below(first, path) {
            return None;
        }
        Some(first.duplicate())
    }
}

/// Whether a path is the other or goes on from it.
fn is_at_or_below(path: &PortPath, above: &PortPath) -> bool
    ensures { result ≡ is_at_or_below path.now above.now }
{
    path == above || path.is_below(above)
}
