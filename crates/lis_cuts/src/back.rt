//! What an edited view makes of a content.

ghost use Rattle.std.specs.Prelude.{◌≡◌, ◌+◌, ◌<◌, ◌≤◌, ◌^◌, true, false, List, [], ◌∷◌, ◌++◌, ◌&&◌, length, codes, MatchOption};
ghost use Rattle.std.specs.Bool.{OnTrue};
ghost use Rattle.std.specs.List.{list_all};
ghost use Rattle.lis_line.specs.Segments.{with_bytes};
ghost use Rattle.lis_views.specs.Lines.{lines_of, joined_lines, ends_in_some};
ghost use Rattle.lis_views.specs.Edits.{is_edited, has_end, before_end, run_at, new_texts, has_marks, is_in_form, view_marks, back_of};
ghost use Rattle.lis_cuts.specs.Returns.{Returns, Holds, feed_unless, are_none};

use crate::forms::{is_edited, is_end, kept_text, mark};
use crate::lines::{first_line, last_line, without_feed};
use crate::stretches::next_run;
use lis_line::reader::Payload;
use lis_place::Place;

/// What was made of an edited view.
#[derive(Clone, Copy, Debug, PartialEq, Eq)]
pub enum Returned {
    /// Refused: it is not a view.
    NotInForm,
    /// Refused: its marks are not those of the view, each once and in order.
    OtherMarks,
    /// The new content.
    Whole,
}

// The lines before the end, and whether the end `!` is there.
fn before_end(input: &[u8]) -> (&[u8], bool)
    ensures texts { (lines_of result.0.now).texts ≡ before_end (lines_of input.now).texts }
    ensures end { result.1 ≡ has_end (lines_of input.now).texts }
    ensures within { length result.0.now ≤ length input.now }
{
    let Some((front, last)) = last_line(input) else {
        return (input, false);
    };
    if is_end(last) {
        return (front, true);
    }
    (input, false)
}

fn are_edited(lines: &[u8]) -> bool
    ensures { result ≡ list_all is_edited (lines_of lines.now).texts }
{
    let mut rest = lines;
    while let Some((line, more)) = first_line(rest) {
        if !is_edited(line) {
            return false;
        }
        rest = more;
    }
    true
}

// The run of the view at the mark; none if the view does not have the mark.
fn run_at<'a>(place: &Place, old: &'a [u8], wanted: &[u8]) -> Option<&'a [u8]>
    ensures { MatchOption result (run_at (view_marks old.now place.now) wanted.now ≡ codes "?" ∷ [])
        (λ run. run_at (view_marks old.now place.now) wanted.now ≡ (lines_of run.now).texts) }
{
    let mut rest = old;
    let mut number = 1;
    while let Some(run) = next_run(place, rest) {
        if mark(number, run.count).as_slice() == wanted {
            return Some(run.bytes);
        }
        number += 1;
        rest = run.rest;
    }
    None
}

fn ends_in_some(bytes: &[u8]) -> bool
    ensures { result ≡ ends_in_some (lines_of bytes.now).texts }
{
    match last_line(bytes) {
        None => false,
        Some((_, last)) => !last.is_empty(),
    }
}

// Whether there is a last new text, and it is not empty.
fn new_ends_in_some(place: &Place, old: &[u8], lines: &[u8]) -> bool
    ensures { result ≡ ends_in_some (new_texts (view_marks old.now place.now) (lines_of lines.now).texts) }
{
    let Some((_, last)) = last_line(lines) else {
        return false;
    };
    if let Some(text) = kept_text(last) {
        return !text.is_empty();
    }
    match run_at(place, old, last) {
        None => true,
        Some(run) => ends_in_some(run),
    }
}

fn is_in_form(place: &Place, old: &[u8], lines: &[u8], is_open: bool) -> bool
    ensures form { result ≡ is_in_form (view_marks old.now place.now) (lines_of lines.now).texts is_open }
    ensures edited { OnTrue result (list_all is_edited (lines_of lines.now).texts ≡ true) }
{
    if !are_edited(lines) {
        return false;
    }
    if !is_open {
        return true;
    }
    new_ends_in_some(place, old, lines)
}

// Whether a text whose line `rest` follows ends the new content without a line feed.
fn ends_open(is_open: bool, rest: &[u8]) -> bool
    ensures { result ≡ (is_open && are_none (lines_of rest.now).texts) }
{
    is_open && rest.is_empty()
}

fn append(new: &mut Payload, text: &[u8], is_last: bool)
    requires { new.old.size + length text.now + 1 < 2 ^ 64 }
    ensures { new.new ≡ with_bytes new.old (text.now ++ feed_unless is_last) }
{
    new.append(text);
    if !is_last {
        new.append(b"\n");
    }
}

// Puts the new content together, and returns whether the marks are those of the view.
fn pour(place: &Place, old: &[u8], lines: &[u8], is_open: bool, new: &mut Payload) -> bool
    requires edited { list_all is_edited (lines_of lines.now).texts ≡ true }
    requires short { length old.now + length lines.now < 2 ^ 63 }
    ensures same { result ≡ has_marks (view_marks old.now place.now) (lines_of lines.now).texts }
    ensures whole { OnTrue result (Holds new.new (joined_lines is_open (new_texts (view_marks old.now place.now) (lines_of lines.now).texts))) }
{
    new.clear();
    let mut rest = lines;
    let mut hidden = old;
    let mut number = 1;
    while let Some((line, more)) = first_line(rest) {
        let is_last = ends_open(is_open, more);
        if let Some(text) = kept_text(line) {
            append(new, text, is_last);
        } else {
            let Some(run) = next_run(place, hidden) else {
                return false;
            };
            if line != mark(number, run.count).as_slice() {
                return false;
            }
            append(new, without_feed(run.bytes), is_last);
            hidden = run.rest;
            number += 1;
        }
        rest = more;
    }
    next_run(place, hidden).is_none()
}

/// Puts an edited view of the old content back. Unless it is refused, the new content is in the payload.
pub fn put_back(place: &Place, old: &[u8], input: &[u8], new: &mut Payload) -> Returned
    requires { length old.now + length input.now < 2 ^ 63 }
    ensures { Returns (back_of old.now place.now input.now) result new.new }
{
    let (lines, is_open) = before_end(input);
    if !is_in_form(place, old, lines, is_open) {
        return Returned::NotInForm;
    }
    if !pour(place, old, lines, is_open, new) {
        return Returned::OtherMarks;
    }
    Returned::Whole
}
