//! What the definitions mean for one another.

ghost use Rattle.edit_script.specs.Laws as laws;

/// A line that is written as a step is that step.
pub fn what_is_written_is_a_step()
    ensures { laws.WhatIsWrittenIsAStep }
{}

/// A line that is a step is written so: it has no other step.
pub fn a_step_is_written_so()
    ensures { laws.AStepIsWrittenSo }
{}
