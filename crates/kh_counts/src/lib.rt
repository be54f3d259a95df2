//! How counts of faults and refusals rise: a definition that the traits of the outside share.
#![tactic(auto)]
