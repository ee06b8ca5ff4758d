//! What of a run `explain` prints.
ghost use Rattle.std.specs.Prelude.{ℕ, List, IfNone, IfSome};
ghost use Rattle.usb_words.specs.Selecting.{NamesAddress, NamesPath, NamesSelection};

use usb_port::PortPath;

/// What of a run `explain` prints.
#[derive(Debug, Drop)]
pub enum Selection {
    /// All of it.
    All,
    /// The attempts to an address, 0 to 127.
    Address(u8),
    /// The attempts to the device at a path.
    Path(PortPath),
    /// The attempts that begin a request.
    Setup,
    /// The attempts of which a packet was damaged.
    Damage,
}

/// The selection that a text names: `all`, an address as `address:5`, a path as `path:1.2`, `setup` or `damage`. None
/// for any other text.
pub fn selection_of(text: &str) -> Option<Selection>
    ensures named { IfSome result (NamesSelection text.now) }
    ensures refused { IfNone result ((s : Selection) → NamesSelection text.now s → ⊥) }
{
    match text {
        "all" => Some(Selection::All),
        "setup" => Some(Selection::Setup),
        "damage" => Some(Selection::Damage),
        _ => match address_of(text) {
            Some(address) => Some(Selection::Address(address)),
            None => match path_of(text) {
                Some(path) => Some(Selection::Path(path)),
                None => None,
            },
        },
    }
}

/// The address that a text names, behind `address:`.
fn address_of(text: &str) -> Option<u8>
    ensures named { IfSome result (NamesAddress text.now) }
    ensures refused { IfNone result ((n : ℕ) → NamesAddress text.now n → ⊥) }
{
    let digits = text.strip_prefix("address:")?;
    let address = digits.parse::<u8>().ok()?;
    if address < 128 { Some(address) } else { None }
}

/// The path that a text names, behind `path:`.
fn path_of(text: &str) -> Option<PortPath>
    ensures named { IfSome result (NamesPath text.now) }
    ensures refused { IfNone result ((p : List ℕ) → NamesPath text.now p → ⊥) }
{
    let path = text.strip_prefix("path:")?;
    PortPath::from_text(path)
}
