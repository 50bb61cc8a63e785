// Small values.
ghost use Rattle.session_laws.specs.Worked.{Works};

/// Numbers, marks, ways and tweens of small values are as they were worked out by hand.
pub fn worked_runs()
    ensures { Works }
{}
