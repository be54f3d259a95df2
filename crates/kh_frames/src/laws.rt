//! The laws of the definitions.
ghost use Rattle.kh_frames.specs.Laws.{RegistersAreMaps};
ghost use Rattle.kh_frames.specs.Renamed.{RulesAreBlind};

/// What was written to an x register is read, and the others stay. Registers that read alike are equal.
pub fn registers_are_maps<V>()
    ensures { RegistersAreMaps V }
{}

/// What a rule says of a state with each value and each place renamed is what it says of the state, renamed.
pub fn rules_are_blind<V, W, P, Q>()
    ensures { (value : V → W) → (place : P → Q) → RulesAreBlind value place }
{}
