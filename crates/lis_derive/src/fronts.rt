//! How much of a file's bytes gives all its words.

ghost use Rattle.std.specs.Prelude.{◌≡◌, ◌≤◌, Some, length};
ghost use Rattle.lis_model.specs.Derived.{is_source};
ghost use Rattle.lis_derive.specs.Fronts.{gives_all};

use crate::suffix::suffix_of;
use lis_mail::has_end_from;
use lis_words::Name;

// Whether the suffix is that of a C source.
fn is_source(suffix: &[u8]) -> bool
    ensures { result ≡ is_source (Some suffix.now) }
{
    suffix == b"c".as_slice() || suffix == b"h".as_slice()
}

/// Whether it is certain that a prefix of a file's bytes gives all words that are derived from them. The empty line that ends a mail's
/// header is searched from index `seen` on.
#[tactic(auto, unfolding(crate::specs::Fronts::gives_all))]
pub fn gives_all(name: &Name, front: &[u8], seen: usize) -> bool
    requires { seen ≤ length front.now }
    ensures { result ≡ gives_all name.now front.now seen }
{
    let Some(suffix) = suffix_of(name.bytes()) else {
        return true;
    };
    if is_source(suffix) {
        return false;
    }
    if suffix == b"eml".as_slice() {
        return has_end_from(front, seen);
    }
    true
}
