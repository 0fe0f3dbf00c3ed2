//! Every generated sample file is accepted: the reader reads it and the checker finds no broken rule.
#![tactic(auto)]

ghost use Rattle.golf_command_sample_accepted.specs.Accepted.{AlwaysAccepted};

/// States that for 1 to 5,000 parts a tree reads the generated file and breaks no rule. The file has at most 1,048,576
/// bytes.
pub fn always_accepted()
    ensures { AlwaysAccepted }
{}
