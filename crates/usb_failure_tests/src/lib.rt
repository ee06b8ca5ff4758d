//! Tests of what no text of `tests/` can hold: readers and writers that fail, at each place in turn,
//! refused memory (`rt try --test --fail-alloc` makes each allocation fail in turn), and values that
//! no command prints.
#![tactic(auto)]

#[cfg(test)]
mod tests;
