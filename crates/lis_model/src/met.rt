//! Which sizes meet a test.

ghost use Rattle.std.specs.Prelude.{◌≡◌};
ghost use Rattle.lis_model.specs.Tests.{is_met};

use lis_words::Test;

/// Whether this many bytes meet the test. Nothing meets `None`.
pub fn is_met(test: Option<Test>, size: u64) -> bool
    ensures { result ≡ is_met test size }
{
    match test {
        None => false,
        Some(test) if test.at_least => test.bytes <= size,
        Some(test) => size < test.bytes,
    }
}
