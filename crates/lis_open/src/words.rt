//! The words of an image: its property slots.

ghost use Rattle.std.specs.Prelude.{◌≡◌, ◌<◌, ℕ, List, None, length, slice_index_or, IsTrue, IfOk, IfSome};
ghost use Rattle.lis_ports.specs.Calls.{ReadsDisk};
ghost use Rattle.lis_journal.specs.Images.{Fits};
ghost use Rattle.lis_fields.specs.Layouts.{prop_bytes, is_prop};
ghost use Rattle.lis_model.specs.Ranges.{are_in_range};
ghost use Rattle.lis_kept.specs.Areas.{property_slots};
ghost use Rattle.lis_open.specs.Reading.{Recalls, IsReadAs, ReadsPart, IsReadable};
ghost use Rattle.lis_open.specs.ReadWords.{no_words, with_property, AreFirstSlots, SlotsEnded, AreFirstWords, WordsEnded};

use crate::blocks::LastBlock;
use crate::mounting::OpenFault;
use lis_bits::Flags;
use lis_dict::{Dict, Unsorted};
use lis_fields::{PropSlot, read_prop};
use lis_journal::Journal;
use lis_kept::properties_start;
use lis_limits::PROP_LEN;
use lis_model::limits::Limits;
use lis_model::spot::Spot;
use lis_ports::{Disk, Failed};
use std::alloc::{AllocError, Global};

/// The words of an image, by their numbers.
#[derive(Drop)]
pub struct Words {
    pub dict: Dict,
    /// By number: the word that has it is declared.
    pub declared: Flags,
}

impl Words {
    /// Frees their memory. A caller that drops them by this call is not checked with the drop of all that they own.
    pub fn close(self) {}
}

/// What is read of the property slots, by their numbers: the words, not sorted yet.
#[derive(Drop)]
pub struct WordSlots {
    pub unsorted: Unsorted,
    /// By number: the word that has it is declared.
    pub declared: Flags,
}

impl WordSlots {
    /// Frees their memory, as `Words::close` does.
    pub fn close(self) {}
}

/// No slot is read yet.
#[tactic(auto, unfolding(crate::specs::ReadWords::no_words))]
pub fn no_words(alloc: Global, limits: &Limits) -> Result<WordSlots, AllocError>
    requires { IsTrue (are_in_range limits.now) }
    ensures { IfOk result (λ slots. slots ≡ no_words limits.now) }
{
    Ok(WordSlots {
        unsorted: Unsorted::new(alloc, limits.props)?,
        declared: Flags::new(alloc, limits.props)?,
    })
}

// Reads a property slot. The result is `None` if the slot is in no layout.
fn read_property<D: Disk>(
    last: &mut LastBlock,
    disk: &mut D,
    journal: &Journal,
    limits: &Limits,
    number: u32,
) -> Result<Option<PropSlot>, Failed>
    requires readable { IsReadable limits.now journal.now (D.meaning disk.old) }
    requires number { number < limits.now.props }
    ensures disk { ReadsDisk (D.meaning disk.old) (D.meaning disk.new) result }
    ensures form { IfOk result (λ found. IfSome found (λ property. IsTrue (is_prop property))) }
    ensures recalls { (kept : ℕ → List ℕ) → Fits journal.now (D.meaning disk.old) kept → Recalls last.old kept → Recalls last.new kept }
    ensures read { IfOk result (λ found. (kept : ℕ → List ℕ) → Fits journal.now (D.meaning disk.old) kept → Recalls last.old kept
        → IsReadAs prop_bytes is_prop (property_slots limits.now) kept number found) }
{
    let mut bytes = [0; PROP_LEN];
    last.read_slot(disk, journal, properties_start(limits), number, &mut bytes)?;
    Ok(read_prop(&bytes))
}

// Takes what a slot says.
fn take_property(slots: &mut WordSlots, number: u32, property: PropSlot)
    requires below { number < length slots.old.unsorted }
    requires flags { number < length slots.old.declared }
    requires free { slice_index_or slots.old.unsorted number None ≡ None }
    ensures { slots.new ≡ with_property slots.old number property }
{
    let (word, is_declared) = match property {
        PropSlot::Free => return,
        PropSlot::Known(word) => (word, false),
        PropSlot::Declared(word) => (word, true),
    };
    slots.unsorted.put(number, &word);
    slots.declared.put(number, is_declared);
}

// Reads the property slots up to the first one that is in no layout, and returns its number, or that of all slots.
fn read_properties<D: Disk>(
    last: &mut LastBlock,
    disk: &mut D,
    journal: &Journal,
    limits: &Limits,
    slots: &mut WordSlots,
) -> Result<u32, Failed>
    requires readable { IsReadable limits.now journal.now (D.meaning disk.old) }
    requires none { slots.old ≡ no_words limits.now }
    ensures disk { ReadsDisk (D.meaning disk.old) (D.meaning disk.new) result }
    ensures read { IfOk result (λ end. AreFirstSlots limits.now slots.new end) }
    ensures recalls { (kept : ℕ → List ℕ) → Fits journal.now (D.meaning disk.old) kept → Recalls last.old kept → Recalls last.new kept }
    ensures ended { (kept : ℕ → List ℕ) → Fits journal.now (D.meaning disk.old) kept → Recalls last.old kept
        → IfOk result (λ end. SlotsEnded limits.now kept slots.new end) }
{
    for number in 0..limits.props {
        let Some(property) = read_property(last, disk, journal, limits, number)? else {
            return Ok(number);
        };
        take_property(slots, number, property);
    }
    Ok(limits.props)
}

/// Reads the property slots, and sorts their words once. The spot is that of the first slot that is in no layout or has a word of an
/// earlier one. No slot is read past one that is in no layout, so a word that is there twice was read before it.
pub fn read_words<D: Disk>(
    last: &mut LastBlock,
    disk: &mut D,
    journal: &Journal,
    limits: &Limits,
    slots: WordSlots,
) -> Result<Words, OpenFault>
    requires readable { IsReadable limits.now journal.now (D.meaning disk.old) }
    requires none { slots ≡ no_words limits.now }
    ensures disk { ReadsPart (D.meaning disk.old) (D.meaning disk.new) result }
    ensures read { IfOk result (λ words. AreFirstWords limits.now words limits.now.props) }
    ensures recalls { (kept : ℕ → List ℕ) → Fits journal.now (D.meaning disk.old) kept → Recalls last.old kept → Recalls last.new kept }
    ensures ended { (kept : ℕ → List ℕ) → Fits journal.now (D.meaning disk.old) kept → Recalls last.old kept → WordsEnded limits.now kept result }
{
    let mut slots = slots;
    let end = read_properties(last, disk, journal, limits, &mut slots)?;
    let WordSlots { unsorted, declared } = slots;
    let spot = match unsorted.sort() {
        Ok(dict) if end == limits.props => return Ok(Words { dict, declared }),
        Ok(_) => end,
        Err(again) => again,
    };
    Err(OpenFault::Damaged(Spot::Property(spot)))
}
