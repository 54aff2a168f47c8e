//! A content in stretches, by whether a formula holds of its lines.

ghost use Rattle.std.specs.Prelude.{◌≡◌, ◌+◌, ◌<◌, ◌≤◌, [], ◌∷◌, ◌++◌, length, MatchOption, IfSome, IfNone, option_copied};
ghost use Rattle.lis_views.specs.Lines.{lines_of};
ghost use Rattle.lis_views.specs.Views.{pieces, runs_of};
ghost use Rattle.lis_cuts.specs.Stretches.{run_piece, shown_piece};

use crate::lines::first_line;
use crate::truth::line_holds;
use lis_place::Place;

/// Some hidden lines, and the shown line after them. Both may be missing.
#[derive(Clone, Copy)]
pub struct Stretch<'a> {
    /// How many lines are hidden.
    pub hidden: u64,
    /// Their bytes.
    pub run: &'a [u8],
    /// The shown line; `None` only at the end of the content.
    pub shown: Option<&'a [u8]>,
    /// The bytes after it.
    pub rest: &'a [u8],
}

/// The first stretch of a content. Each of its lines is read once.
pub fn next_stretch<'a>(place: &Place, bytes: &'a [u8]) -> Stretch<'a>
    ensures pieces { pieces bytes.now place.now
        ≡ run_piece (lines_of result.run.now).texts ++ (shown_piece (option_copied result.shown) ++ pieces result.rest.now place.now) }
    ensures hidden { result.hidden ≡ length (lines_of result.run.now).texts }
    ensures few { result.hidden ≤ length result.run.now }
    ensures within { length result.run.now + length result.rest.now ≤ length bytes.now }
    ensures end { IfNone result.shown (result.rest.now ≡ []) }
    ensures shorter { IfSome result.shown (λ text. length result.rest.now < length bytes.now) }
{
    let mut rest = bytes;
    let mut hidden = 0;
    while let Some((text, more)) = first_line(rest) {
        if line_holds(place, text) {
            let (run, _) = bytes.split_at(bytes.len() - rest.len());
            return Stretch {
                hidden,
                run,
                shown: Some(text),
                rest: more,
            };
        }
        hidden += 1;
        rest = more;
    }
    Stretch {
        hidden,
        run: bytes,
        shown: None,
        rest: &[],
    }
}

/// A run of hidden lines.
#[derive(Clone, Copy)]
pub struct Run<'a> {
    /// How many lines it has.
    pub count: u64,
    /// Their bytes.
    pub bytes: &'a [u8],
    /// What remains of the content.
    pub rest: &'a [u8],
}

/// The next run of hidden lines. The result is `None` exactly if no line is hidden.
pub fn next_run<'a>(place: &Place, bytes: &'a [u8]) -> Option<Run<'a>>
    ensures runs { MatchOption result (runs_of (pieces bytes.now place.now) ≡ [])
        (λ run. runs_of (pieces bytes.now place.now) ≡ (lines_of run.bytes.now).texts ∷ runs_of (pieces run.rest.now place.now)) }
    ensures count { IfSome result (λ run. run.count ≡ length (lines_of run.bytes.now).texts) }
    ensures some { IfSome result (λ run. 0 < run.count) }
    ensures within { IfSome result (λ run. length run.bytes.now + length run.rest.now ≤ length bytes.now) }
    ensures shorter { IfSome result (λ run. length run.rest.now < length bytes.now) }
{
    let mut rest = bytes;
    loop {
        let stretch = next_stretch(place, rest);
        if stretch.hidden > 0 {
            return Some(Run {
                count: stretch.hidden,
                bytes: stretch.run,
                rest: stretch.rest,
            });
        }
        if stretch.shown.is_none() {
            return None;
        }
        rest = stretch.rest;
    }
}
