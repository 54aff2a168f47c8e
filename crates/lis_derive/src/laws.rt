//! A law on derived words, the contract of an empty function.

ghost use Rattle.lis_derive.specs.Fronts.{FrontsGiveAll};

/// Of a mail, a prefix with the whole header gives all words of its content. Of a file that is neither a mail nor a C source, no bytes are
/// needed.
pub fn fronts_give_all()
    ensures { FrontsGiveAll }
{}
