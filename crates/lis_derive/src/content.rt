//! The words of a file's bytes, by its suffix.

ghost use Rattle.std.specs.Prelude.{◌≡◌, Some};
ghost use Rattle.lis_model.specs.Noted.{noted_all};
ghost use Rattle.lis_model.specs.Derived.{content_words};

use lis_csource::source_props;
use lis_mail::mail_props;
use lis_model::derived::Derived;

/// Notes the words of a mail or of a C source; of other files none. The suffix is judged with its case.
pub fn note_content(suffix: &[u8], bytes: &[u8], out: &mut Derived)
    ensures { out.new ≡ noted_all out.old (content_words (Some suffix.now) bytes.now) }
{
    if suffix == b"eml".as_slice() {
        mail_props(bytes, out);
        return;
    }
    if suffix == b"c".as_slice() {
        source_props(bytes, out);
        return;
    }
    if suffix == b"h".as_slice() {
        source_props(bytes, out);
    }
}
