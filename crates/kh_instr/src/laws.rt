//! The laws of code.
ghost use Rattle.kh_instr.specs.Laws.{RelabelKeepsBare, RelabelMapsLabels, RelabelMovesCallee, RelabelKeepsLabels, InstructionsReadBack};

/// Changed labels change nothing of what an instruction does; they change its labels and its callee alone.
pub fn relabelling_keeps_the_effect()
    ensures bare { RelabelKeepsBare }
    ensures labels { RelabelMapsLabels }
    ensures callee { RelabelMovesCallee }
    ensures is_any_label { RelabelKeepsLabels }
{}

/// An instruction that was read from a form is read again from the term that spells it.
pub fn instructions_read_back()
    ensures { InstructionsReadBack }
{}
