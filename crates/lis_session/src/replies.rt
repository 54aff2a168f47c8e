//! The replies to commands.

ghost use Rattle.std.specs.Prelude.{◌++◌, codes};
ghost use Rattle.lis_grammar.specs.Printing.{printed};
ghost use Rattle.lis_model.specs.Replies.{body_line, number_line, ok_line, refusal_line, place_letter};
ghost use Rattle.lis_session.specs.Parts.{answer_of, Answers, Concludes};

use crate::end::End;
use lis_formula::print;
use lis_model::refusal::Refusal;
use lis_place::Place;
use lis_ports::Station;
use lis_reply::{show_all, show_line, show_number, show_ok, show_refusal};
use lis_store::ChangeFault;

/// Shows bytes of a reply.
pub fn answer_bytes<T: Station>(station: &mut T, bytes: &[u8]) -> Result<(), End>
    ensures { Answers (T.meaning station.old) (T.meaning station.new) bytes.now result }
{
    show_all(station, bytes)?;
    Ok(())
}

/// Shows a line of a reply: the letter, a blank, the bytes and a line feed.
pub fn answer_line<T: Station>(station: &mut T, letter: u8, bytes: &[u8]) -> Result<(), End>
    ensures { Answers (T.meaning station.old) (T.meaning station.new) (body_line letter bytes.now) result }
{
    show_line(station, letter, bytes)?;
    Ok(())
}

/// Shows how many bytes a file has.
pub fn answer_size<T: Station>(station: &mut T, size: u32) -> Result<(), End>
    ensures { Answers (T.meaning station.old) (T.meaning station.new) (number_line (codes "b") size) result }
{
    show_number(station, b"b", u64::from(size))?;
    Ok(())
}

/// Shows how many things there are of the kind that the label names.
pub fn answer_count<T: Station>(station: &mut T, label: &[u8], count: u32) -> Result<(), End>
    ensures { Answers (T.meaning station.old) (T.meaning station.new) (number_line label.now count) result }
{
    show_number(station, label, u64::from(count))?;
    Ok(())
}

/// Shows that a command was done.
pub fn answer_ok<T: Station>(station: &mut T) -> Result<(), End>
    ensures { Answers (T.meaning station.old) (T.meaning station.new) ok_line result }
{
    show_ok(station)?;
    Ok(())
}

/// Shows why a command is refused.
pub fn answer_refusal<T: Station>(station: &mut T, refusal: &Refusal) -> Result<(), End>
    ensures { Answers (T.meaning station.old) (T.meaning station.new) (refusal_line refusal.now) result }
{
    show_refusal(station, refusal)?;
    Ok(())
}

/// Shows whether a command was done, or why it is refused.
pub fn answer_result<T: Station>(station: &mut T, answer: Result<(), Refusal>) -> Result<(), End>
    ensures { Answers (T.meaning station.old) (T.meaning station.new) (answer_of answer) result }
{
    match answer {
        Ok(()) => answer_ok(station),
        Err(refusal) => answer_refusal(station, &refusal),
    }
}

/// Shows the place.
pub fn answer_place<T: Station>(station: &mut T, place: &Place) -> Result<(), End>
    ensures { Answers (T.meaning station.old) (T.meaning station.new) (body_line place_letter (printed place.now) ++ ok_line) result }
{
    answer_line(station, b'w', print(place).bytes())?;
    answer_ok(station)
}

/// Shows the reply to a change of the store.
pub fn conclude<T: Station>(station: &mut T, changed: Result<(), ChangeFault>) -> Result<(), End>
    ensures { Concludes T.meaning station.old station.new changed result }
{
    match changed {
        Ok(()) => answer_ok(station),
        Err(ChangeFault::Refused(refusal)) => answer_refusal(station, &refusal),
        Err(ChangeFault::Disk) => Err(End::DiskFault),
    }
}
