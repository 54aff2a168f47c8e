//! Why a line or a command is refused.

ghost use Rattle.std.specs.Prelude.{◌≡◌};
ghost use Rattle.lis_model.specs.Replies.{number_of};

/// The causes for which a line or a command is refused, in the order of their numbers.
#[derive(Clone, Copy, Debug, PartialEq, Eq)]
pub enum Refusal {
    BadLine,
    LongLine,
    CutPayload,
    PayloadEnd,
    BadFormula,
    UnknownProperty,
    LargeFormula,
    NotAPlace,
    NameTaken,
    NoFileHere,
    AlreadyDeclared,
    NotDeclared,
    InUse,
    NotAssignable,
    Cycle,
    AxiomThere,
    NoAxiom,
    TooManyAssigned,
    LargeDescription,
    LargeFile,
    NoFileRoom,
    NoPropertyRoom,
    NoAxiomRoom,
    NoSpace,
    BuiltIn,
}

/// The number that a refusal is shown with.
pub fn number(refusal: &Refusal) -> u8
    ensures { result ≡ number_of refusal.now }
{
    match refusal {
        Refusal::BadLine => 1,
        Refusal::LongLine => 2,
        Refusal::CutPayload => 3,
        Refusal::PayloadEnd => 4,
        Refusal::BadFormula => 5,
        Refusal::UnknownProperty => 6,
        Refusal::LargeFormula => 7,
        Refusal::NotAPlace => 8,
        Refusal::NameTaken => 9,
        Refusal::NoFileHere => 10,
        Refusal::AlreadyDeclared => 11,
        Refusal::NotDeclared => 12,
        Refusal::InUse => 13,
        Refusal::NotAssignable => 14,
        Refusal::Cycle => 15,
        Refusal::AxiomThere => 16,
        Refusal::NoAxiom => 17,
        Refusal::TooManyAssigned => 18,
        Refusal::LargeDescription => 19,
        Refusal::LargeFile => 20,
        Refusal::NoFileRoom => 21,
        Refusal::NoPropertyRoom => 22,
        Refusal::NoAxiomRoom => 23,
        Refusal::NoSpace => 24,
        Refusal::BuiltIn => 25,
    }
}
