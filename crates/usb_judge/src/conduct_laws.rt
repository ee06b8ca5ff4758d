//! What `Outs` keeps of a whole run.
ghost use Rattle.std.specs.Prelude.{List, ℕ};
ghost use Rattle.usb_judge.specs.Runs.{Keeps, Made, left_after, said_at};

/// After a run, `Outs` keeps of each endpoint what the run says of it: whether it left a packet
/// without an answer and has acknowledged none since, and the toggle of that packet.
///
/// It does nothing; what it ensures is for proofs to cite.
pub fn left_after_run()
    ensures { (run : List Made) (address number : ℕ)
        → Keeps (left_after run) address number (said_at address number run) }
{}
