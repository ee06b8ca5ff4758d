//! Which device holds which address, among those that packets reach.
ghost use Rattle.std.specs.Prelude.{◌≡◌, ◌+◌, ◌<◌, ◌^◌, length, [], None, Some, IfOk, IsTrue, false, not};
ghost use Rattle.std.specs.Option.{option_copied};
ghost use Rattle.usb_device.specs.Tree.{changed, put};
ghost use Rattle.usb_device.specs.Delivery.{held_addresses, held_in, repeats};
ghost use Rattle.usb_function.specs.Places.{ports_kept, stood};
ghost use Rattle.usb_device.specs.Holders.{AreBytes, AreNobody, IsIndex, path_below, path_further, reached, reached_in, reached_whole, reached_there, reached_below, reached_at_path, noted, meets_again, held_whole, held_from, released};

use crate::device::Device;
use crate::ports::{Place, Ports};
use arrayvec::ArrayVec;
use std::alloc::{AllocError, Global};
use usb_device::{Holder, path_copy};

/// Which device holds which address, of all that packets reach: an index of a tree of devices.
/// `forget` before a change at one path and `note` after it keep it the index, and cost what is
/// there; `renew` makes it anew after any change.
#[derive(Debug, Drop)]
pub struct Holders {
    holders: Vec<Holder>,
    shared: bool,
    ghost all: { length holders.items ≡ 256 },
}

impl Holders {
    ghost use Rattle.usb_function.specs.HolderIndex.{holder_in, IsIndexOf, IsIndexWithout};

    /// The index of a tree of devices.
    ///
    /// # Errors
    ///
    /// Memory was refused.
    pub fn of(alloc: Global, roots: &Ports) -> Result<Self, AllocError>
        ensures { IfOk result (λ holders. IsIndexOf holders roots.now) }
    {
        let mut holders = Holders {
            holders: nobodies(alloc)?,
            shared: false,
        };
        holders.renew(roots);
        Ok(holders)
    }

    /// Makes it the index of a tree. It takes no memory.
    pub fn renew(&mut self, roots: &Ports)
        ensures { IsIndexOf self.new roots.now }
    {
        self.shared = index(self.holders.as_mut_slice(), roots);
    }

    /// Makes it the index of the tree as it were with nothing at a path, and says so: it takes out
    /// the devices there and below. Where two devices hold one address, nothing changes.
    pub fn forget(&mut self, roots: &Ports, path: &[u8]) -> bool
        requires { IsIndexOf self.old roots.now }
        ensures told { result ≡ not self.old.shared }
        ensures forgotten { IsTrue result → IsIndexWithout self.new roots.now path.now }
        ensures left { result ≡ false → self.new ≡ self.old }
    {
        if self.shared {
            return false;
        }
        index_without(self.holders.as_mut_slice(), roots, path);
        true
    }

    /// Makes it the index of a tree, if it was that of the tree with nothing at a path: it puts
    /// in the devices there and below.
    pub fn note(&mut self, roots: &Ports, path: &[u8])
        requires { IsIndexWithout self.old roots.now path.now }
        ensures { IsIndexOf self.new roots.now }
    {
        let shared = self.shared;
        self.shared = index_with(self.holders.as_mut_slice(), shared, roots, path);
    }

    /// Who holds an address.
    pub fn holder(&self, address: u8) -> &Holder
        ensures { result.now ≡ holder_in self.now address }
    {
        &self.holders[usize::from(address)]
    }

    /// Whether two devices hold one address.
    pub fn is_shared(&self) -> bool
        ensures { result ≡ self.now.shared }
    {
        self.shared
    }
}

/// So many places as there are bytes, with nobody.
fn nobodies(alloc: Global) -> Result<Vec<Holder>, AllocError>
    ensures { IfOk result (λ v. length v.items ≡ 256) }
{
    let mut all = Vec::new(alloc);
    'all: for _ in 0..256u16 {
        all.push(Holder::Nobody)?;
    }
    Ok(all)
}

/// Each place has who holds its number as an address; whether two devices hold one.
#[tactic(auto, using(usb_device::proofs::places::HolderIndexes::indexing))]
fn index(holders: &mut [Holder], roots: &Ports) -> bool
    requires { length holders.old ≡ 256 }
    ensures index { IsIndex holders.new roots.now }
    ensures shared { result ≡ repeats (held_addresses roots.now) }
    ensures length { length holders.new ≡ 256 }
{
    clear(holders);
    roots.note(&Some(ArrayVec::new()), holders)
}

/// Takes what is at a path, and below it, out of an index, if no address is held twice.
#[tactic(auto, using(usb_device::proofs::places::PartedIndexes::parting))]
fn index_without(holders: &mut [Holder], roots: &Ports, path: &[u8])
    requires length { length holders.old ≡ 256 }
    requires index { IsIndex holders.old roots.now }
    requires single { repeats (held_addresses roots.now) ≡ false }
    ensures index { IsIndex holders.new (changed (put None) roots.now path.now) }
    ensures single { repeats (held_addresses (changed (put None) roots.now path.now)) ≡ false }
    ensures length { length holders.new ≡ 256 }
{
    release_at(holders, roots, path);
}

/// Puts what is at a path, and below it, into an index of all else, in which some address is
/// held twice or not; whether one is then.
#[tactic(auto, using(usb_device::proofs::places::PartedIndexes::parting))]
fn index_with(holders: &mut [Holder], shared: bool, roots: &Ports, path: &[u8]) -> bool
    requires length { length holders.old ≡ 256 }
    requires index { IsIndex holders.old (changed (put None) roots.now path.now) }
    requires shared { shared ≡ repeats (held_addresses (changed (put None) roots.now path.now)) }
    ensures index { IsIndex holders.new roots.now }
    ensures shared { result ≡ repeats (held_addresses roots.now) }
    ensures length { length holders.new ≡ 256 }
{
    let met = note_at_path(holders, roots, path);
    shared || met
}

/// Nobody holds anything.
#[tactic(auto, using(usb_device::proofs::places::HolderIndexes::clearing))]
fn clear(holders: &mut [Holder])
    ensures all { AreNobody holders.new }
    ensures length { length holders.new ≡ length holders.old }
{
    'holders: for i in 0..holders.len() {
        holders[i] = Holder::Nobody;
    }
}

impl Ports {
    /// Notes the devices that packets reach in their places, by their paths from the row on, which
    /// lies below another path; whether some address is met again.
    #[cycle(noting)]
    #[tactic(auto, using(crate::proofs::places::HolderIndexes::noting))]
    fn note(&self, above: &Option<ArrayVec<u8, 8>>, holders: &mut [Holder]) -> bool
        requires { length holders.old ≡ 256 }
        ensures met { result ≡ meets_again (reached above.now 1 self.now) holders.old }
        ensures noted { holders.new ≡ noted (reached above.now 1 self.now) holders.old }
        ensures bytes { AreBytes (held_addresses self.now) }
    {
        if self.places.is_empty() {
            false
        } else {
            note_row(self.places.as_slice(), above, 1, holders)
        }
    }
}

/// The same among ports, of which the first one has the number.
#[cycle(noting)]
#[tactic(auto, using(crate::proofs::places::HolderIndexes::noting))]
fn note_row(
    places: &[Place],
    above: &Option<ArrayVec<u8, 8>>,
    number: usize,
    holders: &mut [Holder],
) -> bool
    requires size { length holders.old ≡ 256 }
    requires numbers { number + length places.now < 2 ^ 64 }
    ensures met { result
        ≡ meets_again (reached above.now number (ports_kept places.now)) holders.old }
    ensures noted { holders.new
        ≡ noted (reached above.now number (ports_kept places.now)) holders.old }
    ensures bytes { AreBytes (held_addresses (ports_kept places.now)) }
{
    match places.split_first() {
        None => false,
        Some((place, rest)) => {
            let here = note_at(place, above, number, holders);
            let further = note_row(rest, above, number + 1, holders);
            here || further
        }
    }
}

/// The same at the port, which has the number, and below it.
#[cycle(noting)]
#[tactic(auto, using(crate::proofs::places::HolderIndexes::noting))]
fn note_at(
    place: &Place,
    above: &Option<ArrayVec<u8, 8>>,
    number: usize,
    holders: &mut [Holder],
) -> bool
    requires { length holders.old ≡ 256 }
    ensures met { result
        ≡ meets_again (reached_in above.now number place.now.port place.now.device) holders.old }
    ensures noted { holders.new
        ≡ noted (reached_in above.now number place.now.port place.now.device) holders.old }
    ensures bytes { AreBytes (held_in place.now.port place.now.device) }
{
    match &place.device {
        Some(device) if place.port.is_enabled() => {
            note_device(device, &path_below(above, number), holders)
        }
        _ => false,
    }
}

/// The same of a device by its path, and of those below it.
#[cycle(noting)]
#[tactic(auto, using(crate::proofs::places::HolderIndexes::noting))]
fn note_device(device: &Device, path: &Option<ArrayVec<u8, 8>>, holders: &mut [Holder]) -> bool
    requires { length holders.old ≡ 256 }
    ensures met { result ≡ meets_again (reached_whole path.now device.now) holders.old }
    ensures noted { holders.new ≡ noted (reached_whole path.now device.now) holders.old }
    ensures bytes { AreBytes (held_whole device.now) }
{
    let here = holders[usize::from(device.address())].join(path);
    let below = device.ports.note(path, holders);
    here || below
}

/// The same of the device at a path, and of those below it, if packets reach it.
fn note_at_path(holders: &mut [Holder], roots: &Ports, path: &[u8]) -> bool
    requires { length holders.old ≡ 256 }
    ensures met { result ≡ meets_again (reached_at_path roots.now path.now) holders.old }
    ensures noted { holders.new ≡ noted (reached_at_path roots.now path.now) holders.old }
    ensures bytes { AreBytes (held_from (reached_there roots.now path.now)) }
{
    match roots.reached_at(path) {
        None => false,
        Some(device) => note_device(device, &path_of(path), holders),
    }
}

/// The path of the port of a number below another path, if it is at most eight numbers long.
fn path_below(above: &Option<ArrayVec<u8, 8>>, number: usize) -> Option<ArrayVec<u8, 8>>
    ensures { result ≡ path_below above.now number }
{
    match above {
        Some(above) if above.len() < 8 && number < 256 => {
            let mut path = path_copy(above);
            path.push(number as u8);
            Some(path)
        }
        _ => None,
    }
}

/// A path, if it is at most eight numbers long.
fn path_of(numbers: &[u8]) -> Option<ArrayVec<u8, 8>>
    ensures { result ≡ path_further (Some (record { items = [] })) numbers.now }
{
    let mut path = Some(ArrayVec::new());
    'numbers: for number in numbers {
        path = path_below(&path, usize::from(*number));
    }
    path
}

impl Ports {
    /// The device at a path, if packets reach it: each port on its way is enabled.
    #[cycle(reached_at)]
    #[tactic(auto, using(crate::proofs::places::NumberedPlaces::reaching))]
    fn reached_at(&self, path: &[u8]) -> Option<&Device>
        ensures { option_copied result ≡ reached_there self.now path.now }
    {
        let (number, rest) = path.split_first()?;
        let i = usize::from(*number);
        if i == 0 || i > self.places.len() {
            None
        } else {
            self.places[i - 1].reached_below(rest)
        }
    }

    /// Nobody holds the addresses of the devices that packets reach from the row on.
    #[cycle(releasing)]
    #[tactic(auto, using(crate::proofs::places::HolderIndexes::releasing))]
    fn release(&self, holders: &mut [Holder])
        requires { length holders.old ≡ 256 }
        ensures { holders.new ≡ released (held_addresses self.now) holders.old }
    {
        if !self.places.is_empty() {
            release_row(self.places.as_slice(), holders);
        }
    }
}

impl Place {
    #[cycle(reached_at)]
    #[tactic(auto, using(usb_device::proofs::places::FirstPlaces::paths))]
    fn reached_below(&self, path: &[u8]) -> Option<&Device>
        ensures { option_copied result ≡ reached_below (stood self.now) path.now }
    {
        match &self.device {
            Some(device) if self.port.is_enabled() => match path {
                [] => Some(device),
                [_, ..] => device.ports.reached_at(path),
            },
            _ => None,
        }
    }
}

/// The same of a row.
#[cycle(releasing)]
#[tactic(auto, using(crate::proofs::places::HolderIndexes::releasing))]
fn release_row(places: &[Place], holders: &mut [Holder])
    requires { length holders.old ≡ 256 }
    ensures { holders.new ≡ released (held_addresses (ports_kept places.now)) holders.old }
{
    if let Some((place, rest)) = places.split_first() {
        release_place(place, holders);
        release_row(rest, holders);
    }
}

/// The same of the device on a port and those below it, if the port is enabled.
#[cycle(releasing)]
#[tactic(auto, using(crate::proofs::places::HolderIndexes::releasing))]
fn release_place(place: &Place, holders: &mut [Holder])
    requires { length holders.old ≡ 256 }
    ensures { holders.new
        ≡ released (held_in place.now.port place.now.device) holders.old }
{
    match &place.device {
        Some(device) if place.port.is_enabled() => release_device(device, holders),
        _ => {}
    }
}

/// The same of a device and those below it.
#[cycle(releasing)]
#[tactic(auto, using(crate::proofs::places::HolderIndexes::releasing))]
fn release_device(device: &Device, holders: &mut [Holder])
    requires { length holders.old ≡ 256 }
    ensures { holders.new ≡ released (held_whole device.now) holders.old }
{
    holders[usize::from(device.address())] = Holder::Nobody;
    device.ports.release(holders);
}

/// The same of the device at a path and those below it, if packets reach it.
fn release_at(holders: &mut [Holder], roots: &Ports, path: &[u8])
    requires { length holders.old ≡ 256 }
    ensures { holders.new ≡ released (held_from (reached_there roots.now path.now)) holders.old }
{
    if let Some(device) = roots.reached_at(path) {
        release_device(device, holders);
    }
}
