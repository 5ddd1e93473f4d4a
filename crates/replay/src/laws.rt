// What holds of all replays.
ghost use Rattle.replay.specs.Laws.{OneOutcome, AcceptsRuns};

// A replay has one outcome, and accepts exactly the runs that end with the right.
pub fn laws_stand()
    ensures outcome { OneOutcome }
    ensures accepted { AcceptsRuns }
{}
