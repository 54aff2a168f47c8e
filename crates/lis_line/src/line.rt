//! The words of a line.

ghost use Rattle.std.specs.Prelude.{◌≡◌, ◌≢◌, ◌↔◌, ◌+◌, ◌<◌, ◌≤◌, List, [], ◌∷◌, not, length, MatchOption, IfSome, IsTrue};
ghost use Rattle.std.specs.List.{prefix_len};
ghost use Rattle.lis_model.specs.Script.{words_of, is_long};
ghost use Rattle.lis_line.specs.Tagged.{after_blanks};
ghost use Rattle.lis_words.specs.Bytes.{is_blank, without_return};

use lis_limits::MAX_LINE;

/// Whether a line has more bytes than a line may have; a carriage return at its end counts.
pub fn is_long(line: &[u8]) -> bool
    ensures { result ≡ is_long line.now }
{
    line.len() > MAX_LINE
}

fn is_blank(byte: u8) -> bool
    ensures { result ≡ is_blank byte }
{
    byte == b' ' || byte == b'\t'
}

fn blanks(text: &[u8]) -> usize
    ensures { result ≡ prefix_len is_blank text.now }
{
    text.iter().take_while(|byte| is_blank(**byte)).count()
}

/// A text without the blanks at its start.
pub fn after_blanks(text: &[u8]) -> &[u8]
    ensures text { result.now ≡ after_blanks text.now }
    ensures shorter { length result.now ≤ length text.now }
{
    let (_, rest) = text.split_at(blanks(text));
    rest
}

fn word_len(text: &[u8]) -> usize
    ensures { result ≡ prefix_len (λ b. not (is_blank b)) text.now }
{
    text.iter().take_while(|byte| !is_blank(**byte)).count()
}

/// The line without the carriage return at its end.
pub fn without_return(line: &[u8]) -> &[u8]
    ensures line { result.now ≡ without_return line.now }
    ensures shorter { length result.now ≤ length line.now }
{
    if line.is_empty() {
        return line;
    }
    let (front, last) = line.split_at(line.len() - 1);
    if last[0] == b'\r' { front } else { line }
}

/// The first word of a text, and the text after it; `None` if there is no word.
pub fn next_word(text: &[u8]) -> Option<(&[u8], &[u8])>
    ensures words { MatchOption result (words_of text.now ≡ [])
        (λ found. words_of text.now ≡ found.0.now ∷ words_of found.1.now) }
    ensures shorter { IfSome result (λ found. length found.0.now + length found.1.now ≤ length text.now) }
    ensures some { IfSome result (λ found. 0 < length found.0.now) }
{
    let text = after_blanks(text);
    if text.is_empty() {
        return None;
    }
    Some(text.split_at(word_len(text)))
}

/// The only word of a text.
pub fn only_word(text: &[u8]) -> Option<&[u8]>
    ensures shorter { IfSome result (λ word. length word.now ≤ length text.now) }
    ensures word { MatchOption result (length (words_of text.now) ≢ 1) (λ word. words_of text.now ≡ word.now ∷ []) }
{
    let (word, rest) = next_word(text)?;
    match next_word(rest) {
        None => Some(word),
        Some(_) => None,
    }
}

/// The two words of a text that has no others.
pub fn two_words(text: &[u8]) -> Option<(&[u8], &[u8])>
    ensures shorter { IfSome result (λ two. length two.1.now ≤ length text.now) }
    ensures words { MatchOption result (length (words_of text.now) ≢ 2)
        (λ two. words_of text.now ≡ two.0.now ∷ two.1.now ∷ []) }
{
    let (first, rest) = next_word(text)?;
    match only_word(rest) {
        None => None,
        Some(second) => Some((first, second)),
    }
}

/// Whether a text has no word.
pub fn no_words(text: &[u8]) -> bool
    ensures { IsTrue result ↔ (words_of text.now ≡ []) }
{
    match next_word(text) {
        None => true,
        Some(_) => false,
    }
}
