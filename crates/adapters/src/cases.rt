//! Theorems about the rules of adapters, over the definitions that the contracts use. A function here has its theorem as its
//! contract, and does nothing else.
ghost use Rattle.adapters.specs.Cases.{Worked};
ghost use Rattle.adapters.specs.Rules.{PartsRules};

/// The worked examples hold.
pub fn examples_hold()
    ensures { Worked }
{}

/// The parts of every read and of every opening beat, kind by kind.
pub fn parts_follow_rules()
    ensures { PartsRules }
{}
