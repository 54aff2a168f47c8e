//! The tokens of a field's body.

ghost use Rattle.std.specs.Prelude.{◌≡◌, ◌<◌, List, [], ◌∷◌, length, MatchOption, IfSome};
ghost use Rattle.std.specs.List.{prefix_len};
ghost use Rattle.lis_words.specs.Words.{is_plain_byte};
ghost use Rattle.lis_transducers.specs.Tokens.{tokens, has_at, is_between};

use lis_words::is_plain_byte;

fn gap_len(body: &[u8]) -> usize
    ensures { result ≡ prefix_len is_between body.now }
{
    body.iter()
        .take_while(|byte| !is_plain_byte(**byte))
        .count()
}

fn token_len(body: &[u8]) -> usize
    ensures { result ≡ prefix_len is_plain_byte body.now }
{
    body.iter().take_while(|byte| is_plain_byte(**byte)).count()
}

/// The first token, and what follows it. None exactly if there is no token.
pub fn next_token(body: &[u8]) -> Option<(&[u8], &[u8])>
    ensures tokens { MatchOption result (tokens body.now ≡ [])
        (λ found. tokens body.now ≡ found.0.now ∷ tokens found.1.now) }
    ensures shorter { IfSome result (λ found. length found.1.now < length body.now) }
{
    let (_, rest) = body.split_at(gap_len(body));
    if rest.is_empty() {
        return None;
    }
    Some(rest.split_at(token_len(rest)))
}

/// Whether the token has an `@`.
pub fn has_at(token: &[u8]) -> bool
    ensures { result ≡ has_at token.now }
{
    token.iter().any(|byte| *byte == b'@')
}
