//! A session over an image: it runs one item after another, and clauses say what a stop at any moment may leave.
#![tactic(auto)]

ghost use Rattle.lis_session.specs.Session.{OneForm};

mod carrying;
pub mod changes;
pub mod content;
mod counting;
mod description;
pub mod end;
mod listing;
mod moving;
pub mod replies;
mod route;
pub mod session;
pub mod tally;

/// A moment of a session can be stated by how many items were run, or by the replies that were shown whole. The two statements are the
/// same.
pub fn one_form()
    ensures { OneForm }
{}
