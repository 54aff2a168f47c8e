//! The summary of a session, and how it is shown.

ghost use Rattle.std.specs.Prelude.{◌≡◌, ◌+◌, ◌<◌, ◌^◌, if◌then◌else◌, ◌++◌};
ghost use Rattle.lis_model.specs.Replies.{number_line};
ghost use Rattle.lis_session.specs.Parts.{Answers};
ghost use Rattle.lis_grow.specs.Summary.{summary_text};

use lis_ports::Station;
use lis_reply::show_number;
use lis_session::end::End;
use lis_session::tally::Tally;
use lis_store::Counts;

/// What is kept of the replies to some items: how many there were, how many of them were refusals, and how many words and files
/// those to `ls` listed.
#[derive(Clone, Copy, Debug, PartialEq, Eq)]
pub struct Sum {
    pub replies: u64,
    pub refused: u64,
    pub listed: u64,
}

impl Sum {
    pub fn none() -> Sum
        ensures { result ≡ record { replies = 0; refused = 0; listed = 0 } }
    {
        Sum {
            replies: 0,
            refused: 0,
            listed: 0,
        }
    }

    /// Counts one more reply.
    pub fn add(&mut self, tally: &Tally)
        requires replies { self.old.replies < 2 ^ 32 }
        requires refused { self.old.refused < 2 ^ 32 }
        requires listed { self.old.listed + tally.now.listed < 2 ^ 64 }
        ensures replies { self.new.replies ≡ self.old.replies + 1 }
        ensures refused { self.new.refused ≡ self.old.refused + (if tally.now.refused then 1 else 0) }
        ensures listed { self.new.listed ≡ self.old.listed + tally.now.listed }
    {
        self.replies += 1;
        self.refused += u64::from(tally.refused);
        self.listed += tally.listed;
    }
}

// Shows how many things there are of the kind that the label names.
fn show_count<T: Station>(station: &mut T, label: &[u8], count: u64) -> Result<(), End>
    ensures { Answers (T.meaning station.old) (T.meaning station.new) (number_line label.now count) result }
{
    show_number(station, label, count)?;
    Ok(())
}

// The same for two labels, a line each.
fn show_two<T: Station>(
    station: &mut T,
    label: &[u8],
    count: u64,
    next: &[u8],
    more: u64,
) -> Result<(), End>
    ensures { Answers (T.meaning station.old) (T.meaning station.new) (number_line label.now count ++ number_line next.now more) result }
{
    show_count(station, label, count)?;
    show_count(station, next, more)
}

/// Shows the summary of a session that ended with these counts.
pub fn show_summary<T: Station>(station: &mut T, sum: &Sum, last: &Counts) -> Result<(), End>
    ensures { Answers (T.meaning station.old) (T.meaning station.new)
        (summary_text sum.now.replies sum.now.refused last.now.files last.now.axioms last.now.free sum.now.listed) result }
{
    show_two(station, b"replies", sum.replies, b"refused", sum.refused)?;
    show_two(
        station,
        b"files",
        u64::from(last.files),
        b"axioms",
        u64::from(last.axioms),
    )?;
    show_two(
        station,
        b"free",
        u64::from(last.free),
        b"listed",
        sum.listed,
    )
}
