//! Axiom slots.

ghost use Rattle.std.specs.Prelude.{◌≡◌, length, Option, Some, IfSome, IsTrue};
ghost use Rattle.lis_fields.specs.Layouts.{axiom_bytes, is_axiom};
ghost use Rattle.lis_fields.specs.declared.slots.AxiomSlot.{AxiomSlot};

use crate::fields::{read_number, write_number, write_zeros};
use crate::slots::AxiomSlot;
use lis_limits::AXIOM_LEN;

/// Reads an axiom slot. None exactly if the bytes are no spelling of one.
#[tactic(auto, unfolding(crate::specs::Layouts::axiom_bytes))]
pub fn read_axiom(bytes: &[u8]) -> Option<AxiomSlot>
    ensures spelled { IfSome result (λ slot. IsTrue (is_axiom slot) × (bytes.now ≡ axiom_bytes slot)) }
    ensures same { (slot : AxiomSlot) → IsTrue (is_axiom slot) → bytes.now ≡ axiom_bytes slot → result ≡ Some slot }
{
    if bytes.len() != AXIOM_LEN {
        return None;
    }
    let (left, right) = bytes.split_at(4);
    match (read_number(left), read_number(right)) {
        (0, 0) => Some(AxiomSlot::Free),
        (0, _) | (_, 0) => None,
        (left, right) => Some(AxiomSlot::Pair(left - 1, right - 1)),
    }
}

/// Writes an axiom slot.
#[tactic(auto, unfolding(crate::specs::Layouts::axiom_bytes))]
pub fn write_axiom(slot: &AxiomSlot, bytes: &mut [u8])
    requires len { length bytes.old ≡ 8 }
    requires range { IsTrue (is_axiom slot.now) }
    ensures { bytes.new ≡ axiom_bytes slot.now }
{
    match slot {
        AxiomSlot::Free => write_zeros(bytes),
        AxiomSlot::Pair(left, right) => {
            let (first, second) = bytes.split_at_mut(4);
            write_number(*left + 1, first);
            write_number(*right + 1, second);
        }
    }
}
