//! The table, the pool of addresses and the numbers, changed together.
ghost use Rattle.std.specs.Prelude.{◌≡◌, false, OnOk, OnErr};
ghost use Rattle.usb_table.specs.TableEntries.{has_at};
ghost use Rattle.usb_table.specs.Tables.{entered};
ghost use Rattle.usb_table.specs.Findings.{IsSoundFinding, HasNewAddress, address_found};
ghost use Rattle.usb_enum.specs.declared.finding.Finding.{Finding};
ghost use Rattle.usb_host.specs.HostStates.{Frees};
ghost use Rattle.usb_host.specs.Numbers.{AreNumbers, with_number};

use crate::numbers::Numbers;
use arrayvec::ArrayVec;
use std::alloc::AllocError;
use usb_enum::Finding;
use usb_port::{Address, AddressPool, PortPath};
use usb_table::{DeviceTable, address_of};

/// Enters a finding, with what a refused device said, and gives an accepted device its number. If memory is refused or
/// no number is left, its address is released.
pub(crate) fn enter(
    table: &mut DeviceTable,
    pool: &mut AddressPool,
    numbers: &mut Numbers,
    path: PortPath,
    finding: Finding,
    said: ArrayVec<u8, 18>,
) -> Result<(), AllocError>
    requires away { has_at path table.old.entries ≡ false }
    requires sound { IsSoundFinding finding }
    requires new { HasNewAddress finding table.old.entries }
    ensures ok { OnOk result
        ((table.new ≡ entered path finding said table.old) × (pool.new ≡ pool.old)) }
    ensures err { OnErr result ((table.new ≡ table.old) × Frees finding pool.old pool.new) }
    ensures given { OnOk result (numbers.new ≡ with_number finding numbers.old) }
    ensures kept { OnErr result (numbers.new ≡ numbers.old) }
    ensures numbers { AreNumbers numbers.old }
{
    let address = address_of(&finding);
    if !numbers.has_next() {
        release(pool, address);
        return Err(AllocError);
    }
    let entered = table.insert(path, finding, said);
    if entered.is_ok() {
        numbers.give(address);
    } else {
        release(pool, address);
    }
    entered
}

/// Releases an address, if there is one.
pub(crate) fn release(pool: &mut AddressPool, address: Option<Address>)
    ensures { (f : Finding) → address_found f ≡ address → Frees f pool.old pool.new }
{
    if let Some(address) = address {
        pool.release(address);
    }
}
