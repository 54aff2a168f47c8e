//! What the clauses of the tasks say together. Each law is the contract of a function that does nothing.

ghost use Rattle.std.specs.Prelude.{◌≡◌, ℕ, ◌^◌, ◌≤◌, List, Some, length};
ghost use Rattle.lis_line.specs.declared.carrier.Halt.TheVariants.{End as AtEnd};
ghost use Rattle.lis_model.specs.declared.limits.Limits.{Limits as LimitsOf};
ghost use Rattle.lis_model.specs.State.{State, empty_state};
ghost use Rattle.lis_grow.specs.Session.{grow_items};
ghost use Rattle.lis_shell.specs.Agree.{ShowSame, EndSame, replies_from_empty, replies_from, state_behind};
ghost use Rattle.lis_shell.specs.Causes.{counts, NoFault};
ghost use Rattle.lis_shell.specs.Grows.{growing, GrowEntry, GrowHeadline, IsGrown};
ghost use Rattle.lis_shell.specs.Image.{WorkHeadline, WorkComplete};
ghost use Rattle.lis_shell.specs.Keeps.{TryKeeps, RunKeeps, LoadKeeps};
ghost use Rattle.lis_shell.specs.Runs.{running, AtEntry, IsComplete};
ghost use Rattle.lis_shell.specs.declared.status.Status.{Status as StatusOf};
ghost use Rattle.lis_shell.specs.declared.status.Status.TheVariants.{Ended};

use lis_ports::{Source, Station};

/// `try` and `run` show the same. If both came to the end of the same input, and the image of `run` represented the empty state of the
/// limits of `try`, each showed the model's replies to all commands of the input, after what had been shown before.
///
/// The premises are what `lisfs` states of the two words (`tries`, and `works` of `run`), of any two sources and stations.
pub fn try_and_run_agree<R: Source, S: Source, T: Station, U: Station>()
    ensures { (limits : LimitsOf) (bytes : List ℕ)
        → (typed typed_after : R) (plain plain_after : T) (piped piped_after : S) (image image_after : U)
        → R.left typed ≡ Some bytes
        → TryKeeps limits (R.left typed) (R.left typed_after) (T.meaning plain) (T.meaning plain_after) (Ended AtEnd)
        → AtEntry (U.meaning image) (S.left piped) (empty_state limits) bytes
        → RunKeeps (piped_after ≡ piped) (image_after ≡ image) (S.left piped) (S.left piped_after) (U.meaning image) (U.meaning image_after) (Ended AtEnd)
        → ShowSame (T.meaning plain) (T.meaning plain_after) (U.meaning image) (U.meaning image_after) (replies_from_empty limits bytes) }
{}

/// `run` and `load` show the same and leave the same. If both came to the end of the same input, and both images represented one state,
/// each showed the model's replies to all commands of the input, after what had been shown before. Each image represents the state after
/// these commands, whatever a crash leaves.
///
/// The premises are what `lisfs` states of the two words (`works`), of any two sources and stations.
pub fn run_and_load_agree<R: Source, S: Source, T: Station, U: Station>()
    ensures { (state : State) (bytes : List ℕ)
        → (piped piped_after : R) (image image_after : T) (fed fed_after : S) (other other_after : U)
        → AtEntry (T.meaning image) (R.left piped) state bytes
        → RunKeeps (piped_after ≡ piped) (image_after ≡ image) (R.left piped) (R.left piped_after) (T.meaning image) (T.meaning image_after) (Ended AtEnd)
        → AtEntry (U.meaning other) (S.left fed) state bytes
        → LoadKeeps (fed_after ≡ fed) (other_after ≡ other) (S.left fed) (S.left fed_after) (U.meaning other) (U.meaning other_after) (Ended AtEnd)
        → EndSame (T.meaning image) (T.meaning image_after) (U.meaning other) (U.meaning other_after) (replies_from state bytes) (state_behind state bytes) }
{}

/// `run`, if no call failed and the input has at most 2^40 bytes: each item was run and its reply shown; or memory ran out at the opening.
///
/// The premise is what `lisfs` states of `run` (`work_complete`), of any source and station.
pub fn run_complete<S: Source, T: Station>()
    ensures { (state : State) (bytes : List ℕ) (input input_after : S) (image image_after : T) (status : StatusOf)
        → WorkComplete running (S.left input) (S.left input_after) (counts (T.meaning image) (S.faults input)) (counts (T.meaning image_after) (S.faults input_after))
        (T.meaning image) (T.meaning image_after) status
        → AtEntry (T.meaning image) (S.left input) state bytes → length bytes ≤ 2 ^ 40
        → NoFault (counts (T.meaning image) (S.faults input)) (counts (T.meaning image_after) (S.faults input_after))
        → IsComplete state (2 ^ 40) bytes (S.left input_after) (T.meaning image).shown (T.meaning image_after) status }
{}

/// `grow`: at any moment the image represents the model's state after some first items of the session, and what was shown is a prefix of
/// its summary, of which nothing is shown before all items were run. Or the image is one that a stop could have left at the start.
///
/// The premise is what `lisfs` states of `grow` (`work_headline`), of any source and station.
pub fn grow_headline<S: Source, T: Station>()
    ensures { (n : ℕ) (state : State) (input : S) (image image_after : T)
        → WorkHeadline (growing n) (S.left input) (T.meaning image) (T.meaning image_after)
        → GrowEntry (T.meaning image) state
        → GrowHeadline state (grow_items n) (T.meaning image) (T.meaning image_after) }
{}

/// `grow`, if no call failed: each item was run and the summary was shown; or memory ran out at the opening.
///
/// The premise is what `lisfs` states of `grow` (`work_complete`), of any source and station.
pub fn grow_complete<S: Source, T: Station>()
    ensures { (n : ℕ) (state : State) (input input_after : S) (image image_after : T) (status : StatusOf)
        → WorkComplete (growing n) (S.left input) (S.left input_after) (counts (T.meaning image) (S.faults input)) (counts (T.meaning image_after) (S.faults input_after))
        (T.meaning image) (T.meaning image_after) status
        → GrowEntry (T.meaning image) state
        → NoFault (counts (T.meaning image) (S.faults input)) (counts (T.meaning image_after) (S.faults input_after))
        → IsGrown state (grow_items n) (T.meaning image).shown (T.meaning image_after) status }
{}
