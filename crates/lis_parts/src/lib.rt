//! Parts of a file: the lines of which a formula holds, shown and put back.
#![tactic(auto)]

ghost use Rattle.lis_parts.specs.Laws.{UnchangedViewLeaves};

mod formula;
mod gathering;
mod loading;
mod putting;
mod showing;
mod viewing;
pub mod workspace;

pub use putting::put_file;
pub use viewing::view_file;
pub use workspace::Workspace;

/// A view that is put back unchanged leaves the state of a store. The reply is the refusal that the view has, or `ok`, or, after
/// version 1, the refusal for lack of space, if fewer blocks are free than the file takes.
pub fn unchanged_view_leaves()
    ensures { UnchangedViewLeaves }
{}
