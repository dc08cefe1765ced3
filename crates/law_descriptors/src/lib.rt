//! The law of the descriptors that a shell need not keep.
#![tactic(auto)]

ghost use Rattle.law_descriptors.specs.Covering.{NoCoveredIsNamed};

/// After the last file of the redirections around a command is opened, no call of its run names a descriptor of the
/// shell's own that isn't among its three descriptors then, whatever the answers.
pub fn no_covered_is_named()
    ensures { NoCoveredIsNamed }
{}
