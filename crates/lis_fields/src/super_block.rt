//! The super block.

ghost use Rattle.std.specs.Prelude.{◌≡◌, ℕ, length, Option, Some, IfSome, IsTrue};
ghost use Rattle.lis_model.specs.declared.limits.Limits.{Limits};
ghost use Rattle.lis_model.specs.Ranges.{are_in_range};
ghost use Rattle.lis_fields.specs.Layouts.{SpellsSuper, gate_version, is_gate, super_bytes, super_numbers, super_start, version_gate};

use crate::fields::{are_zeros, read_number, write_number, write_zeros};
use lis_limits::BLOCK_LEN;
use lis_model::limits::{Limits, is_blocks_limit, is_files_limit, is_props_limit, is_version};

/// How a super block begins, before version 3.
const START: [u8; 12] = *b"LISFS-IM\x01\0\0\0";

/// How one of version 3 begins.
const START_3: [u8; 12] = *b"LISFS-IM\x03\0\0\0";

/// How many bytes are before the limits.
const START_LEN: usize = 12;

/// How many bytes the limits take.
const LIMITS_LEN: usize = 12;

/// Whether an image may have these limits.
fn are_in_range(limits: &Limits) -> bool
    ensures { result ≡ are_in_range limits.now }
{
    if !is_files_limit(limits.version, u64::from(limits.files)) {
        return false;
    }
    if !is_props_limit(limits.version, u64::from(limits.props)) {
        return false;
    }
    if !is_blocks_limit(limits.version, u64::from(limits.blocks)) {
        return false;
    }
    is_version(limits.version)
}

/// The version of a gate, before version 3. A stopped write may leave any byte there, so all values but one are version 1.
fn gate_version(gate: u8) -> u32
    ensures { result ≡ gate_version gate }
{
    if gate == 2 { 2 } else { 1 }
}

/// The version of a super block that begins so and has that gate. None exactly if there is no such version.
fn version_of(start: &[u8], gate: u8) -> Option<u32>
    ensures spelled { IfSome result (λ version. (start.now ≡ super_start version) × IsTrue (is_gate version gate)) }
    ensures same { (version : ℕ) → start.now ≡ super_start version → IsTrue (is_gate version gate) → result ≡ Some version }
{
    if start == START_3.as_slice() {
        return if gate == 0 { Some(3) } else { None };
    }
    if start != START.as_slice() {
        return None;
    }
    Some(gate_version(gate))
}

fn version_gate(version: u32) -> u8
    ensures { result ≡ version_gate version }
{
    if version == 2 { 2 } else { 0 }
}

/// The limits of that version with the three numbers.
fn read_limits(bytes: &[u8], version: u32) -> Limits
    requires { length bytes.now ≡ 12 }
    ensures numbers { bytes.now ≡ super_numbers result }
    ensures version { result.version ≡ version }
{
    let (files, rest) = bytes.split_at(4);
    let (props, blocks) = rest.split_at(4);
    Limits {
        files: read_number(files),
        props: read_number(props),
        blocks: read_number(blocks),
        version,
    }
}

/// Reads a super block. None exactly if the bytes are no spelling of one.
#[tactic(auto, unfolding(crate::specs::Layouts::super_with))]
pub fn read_super(bytes: &[u8]) -> Option<Limits>
    ensures spelled { IfSome result (λ limits. IsTrue (are_in_range limits) × SpellsSuper limits bytes.now) }
    ensures same { (limits : Limits) → IsTrue (are_in_range limits) → SpellsSuper limits bytes.now → result ≡ Some limits }
{
    if bytes.len() != BLOCK_LEN {
        return None;
    }
    let (start, rest) = bytes.split_at(START_LEN);
    let (numbers, rest) = rest.split_at(LIMITS_LEN);
    let (gate, end) = rest.split_first()?;
    if !are_zeros(end) {
        return None;
    }
    let limits = read_limits(numbers, version_of(start, *gate)?);
    if !are_in_range(&limits) {
        return None;
    }
    Some(limits)
}

fn write_start(version: u32, bytes: &mut [u8])
    requires { length bytes.old ≡ 12 }
    ensures { bytes.new ≡ super_start version }
{
    if version == 3 {
        bytes.copy_from_slice(&START_3);
    } else {
        bytes.copy_from_slice(&START);
    }
}

fn write_limits(limits: &Limits, bytes: &mut [u8])
    requires { length bytes.old ≡ 12 }
    ensures { bytes.new ≡ super_numbers limits.now }
{
    let (files, rest) = bytes.split_at_mut(4);
    let (props, blocks) = rest.split_at_mut(4);
    write_number(limits.files, files);
    write_number(limits.props, props);
    write_number(limits.blocks, blocks);
}

/// Writes a super block: of its spellings, the one whose gate is 2 or 0.
#[tactic(auto, unfolding(crate::specs::Layouts::super_with))]
pub fn write_super(limits: &Limits, bytes: &mut [u8])
    requires len { length bytes.old ≡ BLOCK_LEN }
    requires range { IsTrue (are_in_range limits.now) }
    ensures { bytes.new ≡ super_bytes limits.now }
{
    let (start, rest) = bytes.split_at_mut(START_LEN);
    let (numbers, rest) = rest.split_at_mut(LIMITS_LEN);
    let (gate, end) = rest.split_at_mut(1);
    write_start(limits.version, start);
    write_limits(limits, numbers);
    gate[0] = version_gate(limits.version);
    write_zeros(end);
}
