//! The words of a mail's fields, in order.

ghost use Rattle.std.specs.Prelude.{◌≡◌, [], ◌∷◌, filter};
ghost use Rattle.lis_words.specs.Words.{is_word};
ghost use Rattle.lis_model.specs.Noted.{noted_all};
ghost use Rattle.lis_transducers.specs.Tokens.{tokens};
ghost use Rattle.lis_transducers.specs.Mail.{mail_words, token_words};

use crate::fields::begun_field;
use crate::lines::{first_line, is_folded};
use crate::tokens::{has_at, next_token};
use crate::words::note_under;
use lis_model::derived::Derived;
use lis_transducers::field::FieldKind;

fn note_token(kind: FieldKind, token: &[u8], out: &mut Derived)
    ensures { out.new ≡ noted_all out.old (filter is_word (token_words kind (token.now ∷ []))) }
{
    match kind {
        FieldKind::From => {
            if has_at(token) {
                note_under(b"from:", token, out);
            }
        }
        FieldKind::To => {
            if has_at(token) {
                note_under(b"to:", token, out);
            }
        }
        FieldKind::Subject => note_under(b"subject:", token, out),
        FieldKind::Other => {}
    }
}

fn note_tokens(kind: FieldKind, body: &[u8], out: &mut Derived)
    ensures { out.new ≡ noted_all out.old (filter is_word (token_words kind (tokens body.now))) }
{
    let mut rest = body;
    while let Some((token, more)) = next_token(rest) {
        note_token(kind, token, out);
        rest = more;
    }
}

/// Notes the words of a mail in order: for each field `From` and `To` a word for each token that has an `@`, for each field `Subject` a
/// word for each token. The mail is the bytes of a file as they are, read once; bytes that are no mail give what their first lines happen
/// to give. Lines, the empty line that ends the header, field names and folded lines are those of RFC 5322, sections 2.1, 2.2 and 2.2.3;
/// which words a field gives, and lines that end with LF alone, are this project's own.
pub fn mail_props(bytes: &[u8], out: &mut Derived)
    ensures { out.new ≡ noted_all out.old (mail_words bytes.now) }
{
    let mut kind = FieldKind::Other;
    let mut rest = bytes;
    loop {
        let (line, more) = first_line(rest);
        if line.is_empty() {
            return;
        }
        if is_folded(line) {
            note_tokens(kind, line, out);
        } else {
            let (begun, body) = begun_field(line);
            kind = begun;
            note_tokens(kind, body, out);
        }
        rest = more;
    }
}
