//! Sets of files, in version 3.

ghost use Rattle.std.specs.Prelude.{◌+◌, ◌-◌, ◌*◌, ◌^◌, ◌≡◌, ◌≤◌, nat_lt, ℕ, List, length, map, take, get_or, Some, IfSome, IsTrue, option_map};
ghost use Rattle.std.specs.List.{flat_map, list_all};
ghost use Rattle.byteorder.specs.Endian.{little_bytes};
ghost use Rattle.lis_fields.specs.Layouts.{set_bytes, is_set};

use crate::fields::{are_zeros, write_zeros};
use crate::files::rise;
use crate::numbers::read_wide;
use arrayvec::ArrayVec;
use byteorder::{ByteOrder, LittleEndian};
use lis_limits::{MAX_DESCRIPTION, SET_LEN};

/// The numbers before the first zero, each less 1.
fn read_next(held: &[u32]) -> ArrayVec<u32, MAX_DESCRIPTION>
    requires { length held.now ≤ MAX_DESCRIPTION }
    ensures small { IsTrue (list_all (λ n. nat_lt n (2 ^ 32 - 1)) result.items) }
    ensures spelled { take (length result.items) held.now ≡ map (λ n. n + 1) result.items }
    ensures ended { get_or held.now (length result.items) 0 ≡ 0 }
{
    let mut numbers = ArrayVec::new();
    for next in held {
        if *next == 0 {
            break;
        }
        numbers.push(*next - 1);
    }
    numbers
}

/// Reads the set of a file, in version 3. None exactly if the bytes are no spelling of one.
pub fn read_set(bytes: &[u8]) -> Option<ArrayVec<u32, MAX_DESCRIPTION>>
    ensures spelled { IfSome result (λ numbers. IsTrue (is_set numbers.items) × (bytes.now ≡ set_bytes numbers.items)) }
    ensures same { (ns : List ℕ) → IsTrue (is_set ns) → bytes.now ≡ set_bytes ns → option_map (λ numbers. numbers.items) result ≡ Some ns }
{
    if bytes.len() != SET_LEN {
        return None;
    }
    let mut held = [0; MAX_DESCRIPTION];
    read_wide(bytes, &mut held, 3);
    let numbers = read_next(&held);
    let (_, padding) = bytes.split_at(4 * numbers.len());
    if !are_zeros(padding) {
        return None;
    }
    if !rise(numbers.as_slice()) {
        return None;
    }
    Some(numbers)
}

/// Writes each number plus 1.
fn write_next(numbers: &[u32], bytes: &mut [u8])
    requires len { length bytes.old ≡ 4 * length numbers.now }
    requires small { IsTrue (list_all (λ n. nat_lt n (2 ^ 32 - 1)) numbers.now) }
    ensures { bytes.new ≡ flat_map (λ n. little_bytes 4 (n + 1)) numbers.now }
{
    for (k, number) in numbers.iter().enumerate() {
        LittleEndian::write_u32(&mut bytes[4 * k..4 * k + 4], *number + 1);
    }
}

/// Writes the set of a file whose words have these numbers.
#[tactic(auto, unfolding(crate::specs::Layouts::zeros, crate::specs::Layouts::set_bytes))]
pub fn write_set(numbers: &[u32], bytes: &mut [u8])
    requires len { length bytes.old ≡ SET_LEN }
    requires few { length numbers.now ≤ MAX_DESCRIPTION }
    requires small { IsTrue (list_all (λ n. nat_lt n (2 ^ 32 - 1)) numbers.now) }
    ensures { bytes.new ≡ set_bytes numbers.now }
{
    let (start, padding) = bytes.split_at_mut(4 * numbers.len());
    write_next(numbers, start);
    write_zeros(padding);
}
