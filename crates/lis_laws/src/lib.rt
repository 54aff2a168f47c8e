//! The laws that the definitions of the model keep, each the contract of a function with nothing to do.
#![tactic(auto)]

ghost use Rattle.lis_laws.specs.Changes.{ChangesKeepForm};
ghost use Rattle.lis_laws.specs.Growth.{KnownGrows};
ghost use Rattle.lis_laws.specs.Laws.{TestsAreChains, NoTies, LocalsAreUncovered, LocalsByFile, RoutesLead, AxiomsAdd, DescriptionsAdd};
ghost use Rattle.lis_laws.specs.Listings.{ListingsRefine};
ghost use Rattle.lis_laws.specs.Steps.{ItemsAreFormed, StepsKeepForm, SessionsAreFormed};
ghost use Rattle.lis_laws.specs.Touches.{ChangesTouch, StepsTouchFew};
ghost use Rattle.lis_laws.specs.Touching.{StepsTouch};

/// What `up` and `is_acyclic` compute is what chains of links say.
pub fn tests_are_chains()
    ensures { TestsAreChains }
{}

/// Two different words never entail each other.
pub fn no_ties()
    ensures { NoTies }
{}

/// The locals are the files of the extension that have no increment.
pub fn locals_are_uncovered()
    ensures { LocalsAreUncovered }
{}

/// The same, file by file.
pub fn locals_by_file()
    ensures { LocalsByFile }
{}

/// The words of a listing narrow its place, and are the most general of the known words that do.
pub fn listings_refine()
    ensures { ListingsRefine }
{}

/// Increments lead to each file of the extension, and are fewer than its files.
pub fn routes_lead()
    ensures { RoutesLead }
{}

/// What one more axiom adds to entailment, and when it makes a cycle.
pub fn axioms_add()
    ensures { AxiomsAdd }
{}

/// What one more axiom adds to the words of a file.
pub fn descriptions_add()
    ensures { DescriptionsAdd }
{}

/// What a change of a state needs so that the state stays well formed.
pub fn changes_keep_form()
    ensures { ChangesKeepForm }
{}

/// The words, names and payload of every item of an input are well formed.
pub fn items_are_formed()
    ensures { ItemsAreFormed }
{}

/// A step keeps states well formed and places within their limits.
pub fn steps_keep_form()
    ensures { StepsKeepForm }
{}

/// Each situation to which a session from the empty state leads is well formed, if its limits are in range.
pub fn sessions_are_formed()
    ensures { SessionsAreFormed }
{}

/// Which words become known when a word, a file or an axiom is added to a state.
pub fn known_grows()
    ensures { KnownGrows }
{}

/// Which words gain or lose a file, and which enter or leave the known ones, in each change.
pub fn changes_touch()
    ensures { ChangesTouch }
{}

/// Which words a step touches, by cases on the command; what is refused touches none.
pub fn steps_touch()
    ensures { StepsTouch }
{}

/// In one step at most 256 words gain or lose a file, and at most 256 enter or leave the known ones.
pub fn steps_touch_few()
    ensures { StepsTouchFew }
{}
