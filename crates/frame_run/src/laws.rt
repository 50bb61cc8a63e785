// What the definitions of reading, check and script lines give together, at programs worked by hand.
ghost use Rattle.frame_run.specs.WorkedChecks.{Checks};
ghost use Rattle.frame_run.specs.WorkedLines.{WorksOfLines, WorksOfCells};
ghost use Rattle.frame_run.specs.WorkedSums.{WorksOfSums};

/// The check of programs gives what was worked by hand.
pub fn worked_checks()
    ensures { Checks }
{}

/// Scripts with tweens and the focus are played as they were worked out by hand.
pub fn worked_lines()
    ensures { WorksOfLines }
{}

/// The same of scripts with cells.
pub fn worked_cells()
    ensures { WorksOfCells }
{}

/// Inputs may build as many components, and lay out and paint as many nodes, as was worked out by hand.
pub fn worked_sums()
    ensures { WorksOfSums }
{}
