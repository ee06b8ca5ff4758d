//! Paths in records.
ghost use Rattle.std.specs.Prelude.{◌≡◌, ◌≤◌, IfNone, IfSome, length, take};
ghost use Rattle.usb_port.specs.Path.{IsPath};
ghost use Rattle.usb_dialogue.specs.Places.{padded, place_bytes};

use arrayvec::ArrayVec;
use usb_port::PortPath;

/// The number of ports of a path, and those ports in seven bytes, with zeros at the end.
pub(crate) fn place_of(path: &PortPath) -> [u8; 8]
    ensures { result ≡ place_bytes path.now }
{
    let numbers = path.numbers();
    let mut place: ArrayVec<u8, 8> = ArrayVec::new();
    place.push(numbers.len() as u8);
    place.try_extend_from_slice(numbers).unwrap();
    place
        .try_extend_from_slice(&[0; 7][numbers.len()..])
        .unwrap();
    place.into_inner().unwrap()
}

/// The path of the first `count` of these numbers; `None` if they are none.
pub(crate) fn path_in(count: u8, numbers: &[u8; 7]) -> Option<PortPath>
    ensures some { IfSome result (λ path. (path ≡ take count numbers.now) × IsPath path) }
    ensures none { IfNone result (count ≤ 7 → IsPath (take count numbers.now) → ⊥) }
{
    let path = path_from(numbers.get(..usize::from(count))?)?;
    // for the checker: a path has one to seven numbers
    let _numbers = path.numbers();
    Some(path)
}

/// The path of these numbers; `None` if they are none.
fn path_from(numbers: &[u8]) -> Option<PortPath>
    ensures some { IfSome result (λ path. path ≡ numbers.now) }
    ensures none { IfNone result (IsPath numbers.now → ⊥) }
{
    let (first, rest) = numbers.split_first()?;
    let mut path = PortPath::root(*first)?;
    'rest: for number in rest {
        if !path.push(*number) {
            return None;
        }
    }
    Some(path)
}
