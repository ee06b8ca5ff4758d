//! The nearest of some names.

ghost use Rattle.std.specs.Prelude.{◌≡◌, ◌≤◌, map, IfOk};
ghost use Rattle.usb_diagnosis.specs.Nearest.{edits_between, IsNearest};

use std::alloc::{AllocError, Global};
use strsim::levenshtein;

/// How many edits may lead from what stands there to what was meant.
const MOST_EDITS: usize = 2;

/// The longest text that is taken for a misspelled name, in bytes.
const LONGEST_NAME: usize = 64;

/// How many letters have to be put in, taken out or exchanged, or 3 if one of the two is longer than
/// any name.
#[tactic(auto, unfolding(crate::specs::Nearest::edits_between))]
fn edits_between(alloc: Global, from: &str, to: &str) -> Result<usize, AllocError>
    ensures { IfOk result (λ n. n ≡ edits_between from.now to.now) }
{
    if from.len() > LONGEST_NAME || to.len() > LONGEST_NAME {
        return Ok(MOST_EDITS + 1);
    }
    levenshtein(alloc, from, to)
}

/// Where among the names the nearest one stands, of equally near ones the first.
pub(crate) fn nearest(
    alloc: Global,
    word: &str,
    names: &[&str],
) -> Result<Option<usize>, AllocError>
    ensures { IfOk result (IsNearest (map (λ n. edits_between word.now n.now) names.now)) }
{
    let mut found = None;
    let mut fewest = MOST_EDITS + 1;
    'names: for (i, name) in names.iter().enumerate() {
        let edits = edits_between(alloc, word, *name)?;
        if edits < fewest {
            found = Some(i);
            fewest = edits;
        }
    }
    Ok(found)
}
