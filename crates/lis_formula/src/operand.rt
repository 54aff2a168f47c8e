//! Words and tests: the operands of a formula text.

ghost use Rattle.std.specs.Prelude.{◌≡◌, Some, None, MatchOption};
ghost use Rattle.lis_grammar.specs.Machine.{after_sign, is_test_front, is_operand_front};
ghost use Rattle.lis_formula.specs.Operands.{operand_node, test_node, counted_number, is_digits_front};

use lis_place::Node;
use lis_words::{is_count, is_word, read_count, read_formula_word};

/// What follows the sign of a test.
fn after_sign<'a>(sign: &[u8], text: &'a [u8]) -> Option<&'a [u8]>
    ensures { MatchOption result
        (after_sign sign.now text.now ≡ None)
        (λ rest. after_sign sign.now text.now ≡ Some rest.now) }
{
    text.strip_prefix(sign)
}

fn is_digits_front(digits: &[u8]) -> bool
    ensures { result ≡ is_digits_front digits.now }
{
    if digits.is_empty() {
        return true;
    }
    is_count(digits)
}

/// Whether some test of this sign begins with the text.
fn is_test_front(sign: &[u8], text: &[u8]) -> bool
    ensures { result ≡ is_test_front sign.now text.now }
{
    match after_sign(sign, text) {
        Some(digits) => is_digits_front(digits),
        None => sign.starts_with(text),
    }
}

/// Whether some word or test begins with the text.
pub fn is_operand_front(text: &[u8]) -> bool
    ensures { result ≡ is_operand_front text.now }
{
    if is_word(text) {
        return true;
    }
    if is_test_front(b"size>=".as_slice(), text) {
        return true;
    }
    is_test_front(b"size<".as_slice(), text)
}

/// The number of a test of this sign.
fn test_number(sign: &[u8], text: &[u8]) -> Option<u64>
    ensures { result ≡ counted_number (after_sign sign.now text.now) }
{
    read_count(after_sign(sign, text)?)
}

/// The node of a test.
fn test(text: &[u8]) -> Option<Node>
    ensures { result ≡ test_node text.now }
{
    match test_number(b"size>=".as_slice(), text) {
        Some(size) => Some(Node::AtLeast(size)),
        None => Some(Node::Below(test_number(b"size<".as_slice(), text)?)),
    }
}

/// The node of a word or a test.
pub fn operand(text: &[u8]) -> Option<Node>
    ensures { result ≡ operand_node text.now }
{
    match read_formula_word(text) {
        Some(word) => Some(Node::Word(word)),
        None => test(text),
    }
}
