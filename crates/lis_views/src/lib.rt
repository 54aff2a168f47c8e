//! Parts of a file: the lines of which a formula holds, and what an edited view of them means for the file. The crate has definitions, and
//! the laws that they keep, each the contract of a function with nothing to do.
#![tactic(auto)]

ghost use Rattle.lis_views.specs.Laws.{OneCut, OneParting, UnchangedStays, HiddenStay, EditsStand};

/// Each content is that of exactly one list of texts without line feeds. Only the last text may lack the line feed after it.
pub fn contents_are_cut()
    ensures { OneCut }
{}

/// A formula parts each content in exactly one way into texts of which it holds and the longest runs of others.
pub fn contents_are_parted()
    ensures { OneParting }
{}

/// A view that is put back unchanged gives the same bytes.
pub fn unchanged_stays()
    ensures { UnchangedStays }
{}

/// If an edited view gives new bytes, the hidden texts are in them in their order, at their marks, and all other texts are those of the
/// input in order.
pub fn hidden_stay()
    ensures { HiddenStay }
{}

/// An edited view with the marks of the view, each once and in order, gives the texts of its lines and of its marks, unless it
/// ends with `!` and the last of them is empty, or there is none.
pub fn edits_stand()
    ensures { EditsStand }
{}
