//! A run's text in, its page out.
ghost use Rattle.std.specs.Prelude.{◌≡◌, IfOk, IfErr};
ghost use Rattle.usb_watch.specs.Watch.{has_failed, known_text, PutsText};
ghost use Rattle.usb_page.specs.Pages.{page_text};

use crate::escape::escaped;
use crate::markup::{HEAD, MIDDLE};
use crate::script::TAIL;
use std::alloc::{AllocError, Global};
use std::io::Write;
use usb_watch::{Watched, WriteFailed, put_pieces};

/// Writes the page of a run's text. The name is its title.
///
/// # Errors
/// Outside: memory was refused, and nothing is written. Inside: the writer failed, and a prefix of the page has gone
/// out.
pub fn put_page<W: Write>(
    alloc: Global,
    name: &str,
    text: &[u8],
    writer: &mut Watched<W>,
) -> Result<Result<(), WriteFailed>, AllocError>
    ensures put { IfOk result (λ put. PutsText (known_text W.contents) has_failed writer.old put
        writer.new (page_text name.now text.now)) }
    ensures refused { IfErr result (λ _. writer.new ≡ writer.old) }
{
    let name = escaped(alloc, name.as_bytes())?;
    let text = escaped(alloc, text)?;
    let pieces: &[&[u8]] = &[
        HEAD.as_bytes(),
        name.as_slice(),
        MIDDLE.as_bytes(),
        text.as_slice(),
        TAIL.as_bytes(),
    ];
    Ok(put_pieces(writer, pieces))
}
