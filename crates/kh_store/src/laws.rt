//! The laws of the tree and of recovery: what a clause states of all trees and files. The functions have no code.
ghost use Rattle.kh_store.specs.Recovery.{OneRecovery};
ghost use Rattle.kh_store.specs.Tree.{OnePut};

/// A put sets the data at its path, makes the nodes above it that aren't there, and changes no other.
pub fn one_put()
    ensures { OnePut }
{}

/// Files recover to exactly one thing.
pub fn one_recovery()
    ensures { OneRecovery }
{}
