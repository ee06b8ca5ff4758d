//! What is written of a run.

/// What is written of a plan's run.
#[derive(Clone, Copy, Debug, PartialEq, Eq)]
pub enum Mode {
    /// The lines of report, and the plan's bound after them.
    Tree,
    /// The lines of trace and of report, each as it happens.
    Run,
}
