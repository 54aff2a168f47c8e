//! The axioms of a state as a sorted list.

ghost use Rattle.std.specs.Prelude.{◌≡◌, not, filter, fold, OnOk, OnErr, IfOk};
ghost use Rattle.std.specs.List.{prefix_len};
ghost use Rattle.std.specs.Ordering.{is_gt};
ghost use Rattle.lis_model.specs.State.{pair_cmp};
ghost use Rattle.lis_model.specs.Changes.{with_axiom, same_pair, has_axiom};
ghost use Rattle.lis_table.specs.Places.{first_is};

use lis_table::closure::Axiom;
use lis_words::Word;
use std::alloc::{AllocError, Global};
use std::cmp::Ordering;

fn is_same(first: &Axiom, second: &Axiom) -> bool
    ensures { result ≡ same_pair first.now second.now }
{
    if first.left != second.left {
        return false;
    }
    first.right == second.right
}

/// Whether there is this axiom.
pub fn has_axiom(axioms: &[Axiom], pair: &Axiom) -> bool
    ensures { result ≡ has_axiom axioms.now pair.now }
{
    axioms.iter().any(|held| is_same(held, pair))
}

fn compared(first: &Axiom, second: &Axiom) -> Ordering
    ensures { result ≡ pair_cmp first.now second.now }
{
    first
        .left
        .cmp(&second.left)
        .then(first.right.cmp(&second.right))
}

fn axiom_place(axioms: &[Axiom], pair: &Axiom) -> usize
    ensures { result ≡ prefix_len (λ held. is_gt (pair_cmp pair.now held)) axioms.now }
{
    axioms
        .iter()
        .take_while(|held| compared(pair, held).is_gt())
        .count()
}

fn begins_with_axiom(axioms: &[Axiom], pair: &Axiom) -> bool
    ensures { result ≡ first_is pair_cmp pair.now axioms.now }
{
    match axioms {
        [] => false,
        [first, ..] => compared(pair, first).is_eq(),
    }
}

/// Inserts the axiom at its index in the order, unless it is there.
pub fn insert_axiom(axioms: &mut Vec<Axiom>, pair: Axiom) -> Result<(), AllocError>
    ensures ok { OnOk result (axioms.new.items ≡ with_axiom axioms.old.items pair) }
    ensures err { OnErr result (axioms.new.items ≡ axioms.old.items) }
{
    let place = axiom_place(axioms, &pair);
    let (_, behind) = axioms.as_slice().split_at(place);
    if begins_with_axiom(behind, &pair) {
        return Ok(());
    }
    axioms.insert(place, pair)?;
    Ok(())
}

/// Inserts an axiom from the left word to each of the others.
pub fn insert_axioms(
    axioms: &mut Vec<Axiom>,
    left: &Word,
    rights: &[Word],
) -> Result<(), AllocError>
    ensures { OnOk result (axioms.new.items ≡ fold (λ kept q. with_axiom kept (left.now, q)) axioms.old.items rights.now) }
{
    for right in rights {
        let pair = Axiom {
            left: left.copied(),
            right: right.copied(),
        };
        insert_axiom(axioms, pair)?;
    }
    Ok(())
}

/// The same axioms.
pub fn axioms_copied(alloc: Global, axioms: &[Axiom]) -> Result<Vec<Axiom>, AllocError>
    ensures { IfOk result (λ copies. copies.items ≡ axioms.now) }
{
    axioms.iter().map(|pair| pair.copied()).collect(alloc)
}

/// All axioms except this one.
pub fn without_axiom(
    alloc: Global,
    axioms: &[Axiom],
    pair: &Axiom,
) -> Result<Vec<Axiom>, AllocError>
    ensures { IfOk result (λ kept. kept.items ≡ filter (λ p. not (same_pair p pair.now)) axioms.now) }
{
    let mut kept = Vec::new(alloc);
    for held in axioms {
        if !is_same(held, pair) {
            kept.push(held.copied())?;
        }
    }
    Ok(kept)
}
