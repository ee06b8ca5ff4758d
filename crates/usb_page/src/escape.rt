//! Text that no browser reads as markup.
ghost use Rattle.std.specs.Prelude.{◌≡◌, ◌++◌, ℕ, List, IfOk, OnOk, flat_map};
ghost use Rattle.usb_page.specs.Escape.{Shows, escaped, shown_byte};

use std::alloc::{AllocError, Global};

/// The text with an entity for each `&`, `<`, `>`, `"` and `'`, and each other byte as it is.
///
/// # Errors
/// Memory was refused.
pub fn escaped(alloc: Global, text: &[u8]) -> Result<Vec<u8>, AllocError>
    ensures { IfOk result (λ out. out.items ≡ escaped text.now) }
{
    let mut out = Vec::with_capacity(alloc, text.len())?;
    'bytes: for byte in text {
        out.extend_from_slice(shown_byte(byte))?;
    }
    Ok(out)
}

/// The entity of a byte that HTML reads as markup, or the byte.
fn shown_byte(byte: &u8) -> &[u8]
    ensures { result.now ≡ shown_byte byte.now }
{
    match *byte {
        b'"' => b"&quot;",
        b'&' => b"&amp;",
        b'\'' => b"&#39;",
        b'<' => b"&lt;",
        b'>' => b"&gt;",
        _ => std::slice::from_ref(byte),
    }
}

/// What a browser shows of an escaped text is that text.
pub fn escaping_laws()
    // It reads no byte of it as markup, and shows all of it.
    ensures shows { (text : List ℕ) → Shows (escaped text) text }
    // It shows nothing else.
    ensures alone { (source one other : List ℕ) → Shows source one → Shows source other
        → one ≡ other }
{}
