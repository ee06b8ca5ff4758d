//! What the program is to do over a live bus.

use std::alloc::{AllocError, Global};

/// What the program is to do over a live bus.
#[derive(Clone, Copy)]
pub(crate) enum Job {
    /// Say which keys are pressed, until there were so many.
    Keys(u32),
    /// Read these blocks, and show them.
    Blocks {
        /// The number of the first block.
        first: u32,
        /// How many blocks.
        count: u8,
    },
    /// Read these blocks, and write them to others.
    Copy {
        /// The number of the first block to be read.
        from: u32,
        /// The number of the first block to be written.
        to: u32,
        /// How many blocks.
        count: u8,
    },
    /// Let disk and host begin again.
    Recover,
}

/// The jobs that words name, in their order; `None` if a word is out of place.
pub(crate) fn jobs_of(alloc: Global, words: &[&str]) -> Result<Option<Vec<Job>>, AllocError> {
    let mut jobs = Vec::new(alloc);
    let mut place = 0usize;
    'jobs: for _ in 0..words.len() {
        let rest = words.get(place..).unwrap_or(&[]);
        if rest.is_empty() {
            return Ok(Some(jobs));
        }
        let Some((job, taken)) = first_job(rest) else {
            return Ok(None);
        };
        jobs.push(job)?;
        place = place.saturating_add(taken);
    }
    Ok(Some(jobs))
}

/// The job that the first words name, and how many words name it.
fn first_job(words: &[&str]) -> Option<(Job, usize)> {
    match words {
        ["keys", count, ..] => Some((Job::Keys(count.parse().ok()?), 2)),
        ["blocks", first, count, ..] => Some((
            Job::Blocks {
                first: first.parse().ok()?,
                count: count.parse().ok()?,
            },
            3,
        )),
        ["copy", from, to, count, ..] => Some((
            Job::Copy {
                from: from.parse().ok()?,
                to: to.parse().ok()?,
                count: count.parse().ok()?,
            },
            4,
        )),
        ["recover", ..] => Some((Job::Recover, 1)),
        _ => None,
    }
}
