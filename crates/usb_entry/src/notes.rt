//! What Linux has of a device beside its descriptors.
ghost use Rattle.usb_entry.specs.Notes.{IsProductRead, IsSpeedRead};

/// A speed that a plan has.
#[derive(Clone, Copy, Debug, PartialEq, Eq)]
pub enum LinuxSpeed {
    /// 1.5 Mbit/s.
    Low,
    /// 12 Mbit/s. A device of 480 Mbit/s has this speed in a plan.
    Full,
}

/// What Linux has of a device beside its descriptors: the files `speed` and `product` of its folder in sysfs.
#[derive(Clone, Copy, Debug)]
pub struct Notes<'a> {
    /// Its speed.
    pub speed: Option<LinuxSpeed>,
    /// The name of the product, not empty.
    pub product: Option<&'a str>,
}

impl<'a> Notes<'a> {
    /// Nothing beside the descriptors.
    pub const NONE: Notes<'static> = Notes {
        speed: None,
        product: None,
    };

    /// What the texts of both files say; an empty text is that of no file.
    pub fn of_texts(speed: &str, product: &'a str) -> Self
        ensures speed { IsSpeedRead speed.now result.speed }
        ensures product { IsProductRead product.now result.product }
    {
        Notes {
            speed: linux_speed(speed),
            product: linux_product(product),
        }
    }
}

/// The speed in the text of the file `speed`, 480 Mbit/s as full speed; None for any other text.
fn linux_speed(text: &str) -> Option<LinuxSpeed>
    ensures { IsSpeedRead text.now result }
{
    match text {
        "1.5\n" => Some(LinuxSpeed::Low),
        "12\n" | "480\n" => Some(LinuxSpeed::Full),
        _ => None,
    }
}

/// The product that the text of the file `product` names; None if that is empty, or has no newline
/// at its end.
fn linux_product(text: &str) -> Option<&str>
    ensures { IsProductRead text.now result }
{
    let product = text.strip_suffix("\n")?;
    if product.is_empty() {
        None
    } else {
        Some(product)
    }
}
