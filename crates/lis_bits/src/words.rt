ghost use Rattle.std.specs.Prelude.{ℕ, ◌+◌, ◌^◌, ◌<◌, ◌≤◌, length, slice_index};
ghost use Rattle.std.specs.Prelude.{◌*◌, ◌≡◌, ◌==◌, ◌↔◌, IsTrue, MatchOption, bit_and, if◌then◌else◌};
ghost use Rattle.std.specs.Int.{bit_not, w64};
ghost use Rattle.lis_bits.specs.Bytes.{bits_number, bits_bytes};
ghost use Rattle.lis_bits.specs.Words.{Joins, JoinsWith, AreApart, word_bit, words_bit, IsNextIn, NoneNextIn, IsNextFrom, NoneNextFrom, HasBytes};

// Sets each of the `width` words from `to` on to what `op` gives of it and of the word at the same distance from `from`.
pub(crate) fn join<F: Fn(u64, u64) -> u64>(
    words: &mut [u64],
    to: usize,
    from: usize,
    width: usize,
    op: F,
)
    requires callable { F.IsAlwaysCallable op }
    requires to_in { to + width ≤ length words.old }
    requires from_in { from + width ≤ length words.old }
    requires apart { AreApart to from width }
    ensures joined { Joins (F.post op) words.old words.new to from width }
    ensures fit { (k : ℕ) → slice_index words.old k < 2 ^ 64 }
{
    for i in 0..width {
        words[to + i] = op(words[to + i], words[from + i]);
    }
}

// Sets each of the words from `to` on to what `op` gives of it and of the other word of the same index.
pub(crate) fn join_with<F: Fn(u64, u64) -> u64>(words: &mut [u64], to: usize, others: &[u64], op: F)
    requires callable { F.IsAlwaysCallable op }
    requires to_in { to + length others.now ≤ length words.old }
    ensures joined { JoinsWith (F.post op) words.old words.new to others.now (length others.now) }
    ensures fit { (k : ℕ) → slice_index words.old k < 2 ^ 64 }
{
    for i in 0..others.len() {
        words[to + i] = op(words[to + i], others[i]);
    }
}

// The word with one bit set to a value.
pub(crate) fn with_bit(word: u64, bit: u32, value: bool) -> u64
    requires { bit < 64 }
    ensures { (k : ℕ) → k < 64 → word_bit result k ≡ (if k == bit then value else word_bit word k) }
{
    let mask = 1u64 << bit;
    if value { word | mask } else { word & !mask }
}

// Whether each bit that is 1 in the first words is 1 in the second ones.
pub(crate) fn is_subset(a: &[u64], b: &[u64]) -> bool
    requires { length a.now ≡ length b.now }
    ensures { IsTrue result ↔ ((i : ℕ) → i < length a.now
        → bit_and (slice_index a.now i) (bit_not w64 (slice_index b.now i)) ≡ 0) }
{
    a.iter().zip(b).all(|(a, b)| a & !b == 0)
}

// The least bit of a word from `start` on that is 1.
fn next_in(word: u64, start: u32) -> Option<u32>
    requires { start < 64 }
    ensures { MatchOption result (NoneNextIn word start) (IsNextIn word start) }
{
    let rest = word & u64::MAX << start;
    if rest == 0 {
        None
    } else {
        Some(rest.trailing_zeros())
    }
}

// The least bit of the words from `start` on that is 1.
pub(crate) fn next(words: &[u64], start: usize) -> Option<usize>
    requires { 64 * length words.now < 2 ^ 32 }
    ensures { MatchOption result (NoneNextFrom (words_bit words.now) (64 * length words.now) start)
        (IsNextFrom (words_bit words.now) (64 * length words.now) start) }
{
    let first = start / 64;
    for i in first..words.len() {
        let from = if i == first { (start % 64) as u32 } else { 0 };
        if let Some(bit) = next_in(words[i], from) {
            return Some(64 * i + bit as usize);
        }
    }
    None
}

// Writes the words as bytes, the lowest byte of each first. Eight bytes of one word are written together, so that they are one
// store.
pub(crate) fn write_bytes(words: &[u64], buf: &mut [u8])
    requires { length buf.old ≡ 8 * length words.now }
    ensures { buf.new ≡ bits_bytes (length buf.old) (words_bit words.now) }
{
    for k in 0..words.len() {
        write_word(words, k, buf);
    }
}

// Writes the bytes of one word after those of the words before it.
fn write_word(words: &[u64], k: usize, buf: &mut [u8])
    requires word { k < length words.now }
    requires room { 8 * k + 8 ≤ length buf.old }
    requires before { HasBytes words.now buf.old (8 * k) }
    ensures { HasBytes words.now buf.new (8 * k + 8) }
{
    for i in 0..8 {
        let at = 8 * k + i;
        buf[at] = byte(words, at);
    }
}

// Whether eight bytes are those of a word, the lowest byte first. They are compared as one number.
fn is_word(word: u64, bytes: &[u8]) -> bool
    requires { length bytes.now ≡ 8 }
    ensures { IsTrue result ↔ ((i : ℕ) → i < 8 → slice_index bytes.now i ≡ bits_number 8 (λ bit. word_bit word (8 * i + bit))) }
{
    word == u64::from_le_bytes([
        bytes[0], bytes[1], bytes[2], bytes[3], bytes[4], bytes[5], bytes[6], bytes[7],
    ])
}

// Whether the bytes are those of the words, the lowest byte of each first.
pub(crate) fn are_bytes(words: &[u64], bytes: &[u8]) -> bool
    requires { length bytes.now ≡ 8 * length words.now }
    ensures { IsTrue result ↔ bytes.now ≡ bits_bytes (length bytes.now) (words_bit words.now) }
{
    for k in 0..words.len() {
        if !is_word(words[k], &bytes[8 * k..8 * k + 8]) {
            return false;
        }
    }
    true
}

// A byte of the words, of which the first has the lowest bits of the first word.
pub(crate) fn byte(words: &[u64], k: usize) -> u8
    requires { k < 8 * length words.now }
    ensures { result ≡ bits_number 8 (λ i. words_bit words.now (8 * k + i)) }
{
    (words[k / 8] >> (k % 8 * 8) & 0xff) as u8
}
