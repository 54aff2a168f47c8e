//! What counts in a source, and the words that it gives.

ghost use Rattle.std.specs.Prelude.{◌≡◌, ◌+◌, ◌-◌, ◌^◌, ◌<◌, ◌≤◌, ◌==◌, ◌&&◌, List, [], ◌∷◌, true, false, Some, None};
ghost use Rattle.lis_model.specs.Noted.{noted_all};
ghost use Rattle.lis_transducers.specs.Joined.{joined};
ghost use Rattle.lis_transducers.specs.Bytes.{front, is_name_byte};
ghost use Rattle.lis_transducers.specs.Pieces.{Piece, piece_of, context_after, is_in_path};
ghost use Rattle.lis_transducers.specs.Entries.{counts, entries, is_token};
ghost use Rattle.lis_transducers.specs.Source.{is_byte, depth_after, braces_after, parens_after, is_candidate, included_word, source_words};
ghost use Rattle.lis_csource.specs.Reading.{noted_words, stage_after, with_name, IsSoundStage};

use crate::pieces::{Found, context_after, first_piece};
use crate::words::{is_keyword, note_defined, note_included};
use lis_model::derived::Derived;
use lis_transducers::piece::{Context, Kind};

/// How much has been read of an identifier that may turn out to be defined.
#[derive(Clone, Copy, Debug, PartialEq, Eq)]
pub enum Stage {
    /// There is none.
    Nothing,
    /// Its name.
    Named,
    /// A part of its parentheses.
    Open,
    /// All of its parentheses.
    Closed,
}

/// How far a source has been read.
#[derive(Drop)]
struct Reading<'a> {
    context: Context,
    braces: usize,
    parens: usize,
    stage: Stage,
    /// The identifier that may turn out to be defined.
    name: &'a [u8],
    /// The words that are right if it is defined. None as long as they are those noted so far, and then its own word.
    early: Option<Derived>,
}

/// Whether a piece counts: a path does, and each token outside directives.
fn counts(context: Context, kind: Kind) -> bool
    ensures { result ≡ counts context kind }
{
    match kind {
        Kind::Blank | Kind::White | Kind::Feed | Kind::Comment => false,
        Kind::Path(_) => true,
        Kind::Mark(b'#') => context == Context::Code,
        _ => matches!(context, Context::LineStart | Context::Code),
    }
}

fn is_byte(byte: u8, kind: Kind) -> bool
    ensures { result ≡ is_byte byte kind }
{
    match kind {
        Kind::Mark(mark) => mark == byte,
        _ => false,
    }
}

fn depth_after(opening: u8, closing: u8, depth: usize, kind: Kind) -> usize
    requires { depth + 1 < 2 ^ 64 }
    ensures value { result ≡ depth_after opening closing depth kind }
    ensures near { result ≤ depth + 1 }
{
    if is_byte(opening, kind) {
        return depth + 1;
    }
    if is_byte(closing, kind) {
        return depth.saturating_sub(1);
    }
    depth
}

/// The stage after a token, by the depth of parentheses after it.
fn stage_after(stage: Stage, parens: usize, kind: Kind) -> Stage
    ensures { result ≡ stage_after stage parens kind }
{
    match stage {
        Stage::Named => {
            if is_byte(b'(', kind) {
                Stage::Open
            } else {
                Stage::Nothing
            }
        }
        Stage::Open => {
            if is_byte(b')', kind) && parens == 0 {
                Stage::Closed
            } else {
                Stage::Open
            }
        }
        _ => Stage::Nothing,
    }
}

impl<'a> Reading<'a> {
    ghost use Rattle.lis_transducers.specs.declared.piece.Kind.{Kind};
    ghost use Rattle.lis_csource.specs.Rights.{right_words_of, words_to_come};

    fn is_candidate(&self, kind: Kind, text: &[u8]) -> bool
        ensures { result ≡ is_candidate self.now.braces self.now.parens (piece_of kind (joined text.now)) }
    {
        if kind != Kind::Identifier || self.braces > 0 || self.parens > 0 {
            return false;
        }
        !is_keyword(text)
    }

    /// Replaces the words by those that are right if the identifier is defined.
    fn accept(&mut self, out: &mut Derived)
        ensures words { out.new ≡ with_name out.old (front is_name_byte (joined self.old.name.now)) self.old.early }
        ensures rest { self.new ≡ record self.old { early = None } }
    {
        match self.early.take() {
            None => note_defined(self.name, out),
            Some(early) => *out = early,
        }
    }

    fn note_early(&mut self, close: u8, path: &[u8], out: &Derived)
        ensures rest { self.new ≡ record self.old {
          early = Some
              (noted_words (with_name out.now (front is_name_byte (joined self.old.name.now)) self.old.early)
              (included_word (front (is_in_path close) (joined path.now)) ∷ []));
        } }
    {
        let mut early = match self.early.take() {
            None => {
                let mut copy = out.copied();
                note_defined(self.name, &mut copy);
                copy
            }
            Some(early) => early,
        };
        note_included(close, path, &mut early);
        self.early = Some(early);
    }

    fn take_path(&mut self, close: u8, path: &[u8], out: &mut Derived)
        ensures right { (kinds : List Kind) → right_words_of self.new out.new kinds
            ≡ noted_words (right_words_of self.old out.old kinds) (included_word (front (is_in_path close) (joined path.now)) ∷ []) }
        ensures rest { self.new ≡ record self.old { early = self.new.early } }
    {
        if self.stage != Stage::Nothing {
            self.note_early(close, path, out);
        }
        note_included(close, path, out);
    }

    /// Goes past a token, but begins no candidate with it.
    fn settle(&mut self, kind: Kind, out: &mut Derived)
        requires sound { IsSoundStage self.old.stage self.old.parens }
        requires few { (self.old.braces + 1 < 2 ^ 64) × (self.old.parens + 1 < 2 ^ 64) }
        ensures right { (kinds : List Kind) → right_words_of self.new out.new kinds ≡ right_words_of self.old out.old (kind ∷ kinds) }
        ensures place { self.new ≡ record self.old {
          braces = braces_after self.old.braces kind;
          parens = parens_after self.old.parens kind;
          stage = stage_after self.old.stage (parens_after self.old.parens kind) kind;
          early = self.new.early;
        } }
    {
        if self.stage == Stage::Closed && is_byte(b'{', kind) {
            self.accept(out);
        }
        self.braces = depth_after(b'{', b'}', self.braces, kind);
        self.parens = depth_after(b'(', b')', self.parens, kind);
        self.stage = stage_after(self.stage, self.parens, kind);
    }

    fn take_token(&mut self, kind: Kind, text: &'a [u8], out: &mut Derived)
        requires token { is_token kind ≡ true }
        requires sound { IsSoundStage self.old.stage self.old.parens }
        requires few { (self.old.braces + 1 < 2 ^ 64) × (self.old.parens + 1 < 2 ^ 64) }
        ensures words { (es : List Piece) → words_to_come self.new out.new es
            ≡ words_to_come self.old out.old (piece_of kind (joined text.now) ∷ es) }
        ensures sound { IsSoundStage self.new.stage self.new.parens }
        ensures near { (self.new.braces ≤ self.old.braces + 1) × (self.new.parens ≤ self.old.parens + 1) }
        ensures context { self.new.context ≡ self.old.context }
    {
        let candidate = self.is_candidate(kind, text);
        self.settle(kind, out);
        if candidate {
            self.stage = Stage::Named;
            self.name = text;
            self.early = None;
        }
    }

    /// Notes what a piece gives.
    fn take(&mut self, found: &Found<'a>, out: &mut Derived)
        requires sound { IsSoundStage self.old.stage self.old.parens }
        requires few { (self.old.braces + 1 < 2 ^ 64) × (self.old.parens + 1 < 2 ^ 64) }
        ensures words { (ps : List Piece) → words_to_come self.new out.new (entries self.new.context ps)
            ≡ words_to_come self.old out.old (entries self.old.context (piece_of found.now.kind (joined found.now.text.now) ∷ ps)) }
        ensures sound { IsSoundStage self.new.stage self.new.parens }
        ensures near { (self.new.braces ≤ self.old.braces + 1) × (self.new.parens ≤ self.old.parens + 1) }
        ensures context { self.new.context ≡ context_after self.old.context (piece_of found.now.kind (joined found.now.text.now)) }
    {
        if counts(self.context, found.kind) {
            match found.kind {
                Kind::Path(close) => self.take_path(close, found.text, out),
                _ => self.take_token(found.kind, found.text, out),
            }
        }
        self.context = context_after(self.context, found.kind, found.text);
    }
}

/// Notes the words of a source in order: for each include the last part of its path, and for each function that is defined outside braces
/// and parentheses its name. The source is the bytes of a file as they are; it is read once, from start to end, and no byte of it is kept.
/// Block comments do not nest, `//` runs to the end of its line, a backslash before a line end joins lines before comments are seen, a
/// backslash escapes in literals, and includes are written with `<x>` or `"x"`, as in C; which words a source gives is this project's own.
pub fn source_props(bytes: &[u8], out: &mut Derived)
    ensures { out.new ≡ noted_all out.old (source_words bytes.now) }
{
    let mut reading = Reading {
        context: Context::LineStart,
        braces: 0,
        parens: 0,
        stage: Stage::Nothing,
        name: bytes,
        early: None,
    };
    let mut rest = bytes;
    while let Some(found) = first_piece(reading.context, rest) {
        reading.take(&found, out);
        rest = found.rest;
    }
}
