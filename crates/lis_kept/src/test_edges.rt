//! The edges between tests: one leads from each declared test to the next weaker one.

ghost use Rattle.std.specs.Prelude.{◌≡◌, ◌+◌, ◌≤◌, ◌<◌, true, false, Some, length, MatchOption, IfSome};
ghost use Rattle.std.specs.Option.{option_map};
ghost use Rattle.lis_dict.specs.Dict.{IsDict};
ghost use Rattle.lis_model.specs.Tests.{is_weaker};
ghost use Rattle.lis_taxonomy.specs.Taxonomy.{edge_count, edge_room};
ghost use Rattle.lis_kept.specs.declared.test_edges.Found.{Found};
ghost use Rattle.lis_kept.specs.TestEdges.{declared_test, is_past, IsNeighbour, AreInOrder, TestsAreOrdered, LinksPair, UnlinksPair, LinksNext, InsertsTest, RemovesTest};

use lis_bits::Flags;
use lis_dict::Dict;
use lis_limits::V3_MAX_PROPS;
use lis_taxonomy::Taxonomy;
use lis_words::{Test, test_of};

/// On which side of a test another one is.
#[derive(Clone, Copy)]
pub(crate) enum Side {
    Weaker,
    Stronger,
}

// A declared test, and its number.
#[derive(Clone, Copy)]
struct Found {
    number: u32,
    test: Test,
}

fn is_weaker(q: Test, p: Test) -> bool
    ensures { result ≡ is_weaker q p }
{
    if q.at_least {
        return p.at_least && q.bytes < p.bytes;
    }
    !p.at_least && p.bytes < q.bytes
}

// Whether the first test is on that side of the second one.
fn is_past(side: Side, q: Test, p: Test) -> bool
    ensures { result ≡ is_past side (Some q) (Some p) }
{
    match side {
        Side::Weaker => is_weaker(q, p),
        Side::Stronger => is_weaker(p, q),
    }
}

// The test that the word of a number is, if the word is declared.
fn declared_test(dict: &Dict, declared: &Flags, number: u32) -> Option<Test>
    requires long { number < length declared.now }
    ensures { result ≡ declared_test dict.now declared.now number }
{
    if !declared.get(number) {
        return None;
    }
    let word = dict.word_of(number)?;
    test_of(&word)
}

// The declared test of a number, if it is on that side of a test.
fn test_past(dict: &Dict, declared: &Flags, number: u32, test: Test, side: Side) -> Option<Test>
    requires long { number < length declared.now }
    ensures there { IfSome result (λ found. declared_test dict.now declared.now number ≡ Some found) }
    ensures past { MatchOption result (is_past side (declared_test dict.now declared.now number) (Some test) ≡ false) (λ found. is_past side (Some found) (Some test) ≡ true) }
{
    let found = declared_test(dict, declared, number)?;
    if !is_past(side, found, test) {
        return None;
    }
    Some(found)
}

// Whether a test is nearer than the nearest one so far, of tests that are all on that side of another one.
fn is_nearer(nearest: Option<Found>, test: Test, side: Side) -> bool
    ensures { MatchOption nearest (result ≡ true) (λ found. result ≡ is_past side (Some found.test) (Some test)) }
{
    match nearest {
        None => true,
        Some(nearest) => is_past(side, nearest.test, test),
    }
}

// The number of a test that was found.
fn number_of(found: Option<Found>) -> Option<u32>
    ensures { result ≡ option_map (λ (f : Found). f.number) found }
{
    match found {
        None => None,
        Some(found) => Some(found.number),
    }
}

// The number of the nearest declared test on that side of a test.
fn nearest(dict: &Dict, declared: &Flags, test: Test, side: Side) -> Option<u32>
    requires few { dict.now.props ≤ V3_MAX_PROPS }
    requires bits { length declared.now ≡ dict.now.props }
    ensures below { IfSome result (λ number. number < dict.now.props) }
    ensures neighbour { IsNeighbour side dict.now declared.now (Some test) result }
{
    let (start, end) = dict.tests();
    let mut nearest = None;
    for place in start..end {
        let Some((_, number)) = dict.word_at(place) else {
            unreachable!()
        };
        if let Some(found) = test_past(dict, declared, number, test, side) {
            if is_nearer(nearest, found, side) {
                nearest = Some(Found {
                    number,
                    test: found,
                });
            }
        }
    }
    number_of(nearest)
}

// The number of the nearest declared test on that side of a number's test, if the number has one.
fn neighbour(dict: &Dict, declared: &Flags, number: u32, side: Side) -> Option<u32>
    requires few { dict.now.props ≤ V3_MAX_PROPS }
    requires number { number < dict.now.props }
    requires bits { length declared.now ≡ dict.now.props }
    ensures below { IfSome result (λ found. found < dict.now.props) }
    ensures neighbour { IsNeighbour side dict.now declared.now (declared_test dict.now declared.now number) result }
{
    let test = declared_test(dict, declared, number)?;
    nearest(dict, declared, test, side)
}

// Adds the edge from a test to a weaker one, if both are given. The edge may be there already.
fn link_pair(
    dict: &Dict,
    declared: &Flags,
    taxonomy: &mut Taxonomy,
    from: Option<u32>,
    to: Option<u32>,
)
    requires from { IfSome from (λ p. p < taxonomy.old.props) }
    requires to { IfSome to (λ q. q < taxonomy.old.props) }
    requires weaker { AreInOrder dict.now declared.now from to }
    requires ordered { TestsAreOrdered dict.now taxonomy.old }
    requires room { edge_count taxonomy.old < edge_room taxonomy.old.props }
    ensures few { edge_count taxonomy.new ≤ edge_count taxonomy.old + 1 }
    ensures linked { LinksPair from to taxonomy.old taxonomy.new }
    ensures ordered { TestsAreOrdered dict.now taxonomy.new }
{
    let Some(from) = from else {
        return;
    };
    let Some(to) = to else {
        return;
    };
    let _ = taxonomy.add(from, to);
}

// Removes the edge from a number to another, if both are given. The edge may be missing.
fn unlink_pair(dict: &Dict, taxonomy: &mut Taxonomy, from: Option<u32>, to: Option<u32>)
    requires from { IfSome from (λ p. p < taxonomy.old.props) }
    requires to { IfSome to (λ q. q < taxonomy.old.props) }
    requires ordered { TestsAreOrdered dict.now taxonomy.old }
    ensures few { edge_count taxonomy.new ≤ edge_count taxonomy.old }
    ensures unlinked { UnlinksPair from to taxonomy.old taxonomy.new }
    ensures ordered { TestsAreOrdered dict.now taxonomy.new }
{
    let Some(from) = from else {
        return;
    };
    let Some(to) = to else {
        return;
    };
    let _ = taxonomy.remove(from, to);
}

/// Adds the edge from a number to that of the next weaker test, if its word is a declared test and there is a weaker one.
pub fn link_next(dict: &Dict, declared: &Flags, taxonomy: &mut Taxonomy, number: u32)
    requires few { taxonomy.old.props ≤ V3_MAX_PROPS }
    requires number { number < taxonomy.old.props }
    requires dict { IsDict dict.now }
    requires names { dict.now.props ≡ taxonomy.old.props }
    requires bits { length declared.now ≡ taxonomy.old.props }
    requires ordered { TestsAreOrdered dict.now taxonomy.old }
    requires room { edge_count taxonomy.old < edge_room taxonomy.old.props }
    ensures linked { LinksNext dict.now declared.now number taxonomy.old taxonomy.new }
    ensures ordered { TestsAreOrdered dict.now taxonomy.new }
{
    let weaker = neighbour(dict, declared, number, Side::Weaker);
    link_pair(dict, declared, taxonomy, Some(number), weaker);
}

/// Puts a number between those of the next tests on both sides, if its word is a declared test.
pub(crate) fn insert_test(dict: &Dict, declared: &Flags, taxonomy: &mut Taxonomy, number: u32)
    requires few { taxonomy.old.props ≤ V3_MAX_PROPS }
    requires number { number < taxonomy.old.props }
    requires names { dict.now.props ≡ taxonomy.old.props }
    requires bits { length declared.now ≡ taxonomy.old.props }
    requires ordered { TestsAreOrdered dict.now taxonomy.old }
    requires room { edge_count taxonomy.old + 2 ≤ edge_room taxonomy.old.props }
    ensures { InsertsTest dict.now declared.now number taxonomy.old taxonomy.new }
{
    let weaker = neighbour(dict, declared, number, Side::Weaker);
    let stronger = neighbour(dict, declared, number, Side::Stronger);
    unlink_pair(dict, taxonomy, stronger, weaker);
    link_pair(dict, declared, taxonomy, Some(number), weaker);
    link_pair(dict, declared, taxonomy, stronger, Some(number));
}

/// Removes a number from between those of the next tests on both sides, if its word is a declared test.
pub(crate) fn remove_test(dict: &Dict, declared: &Flags, taxonomy: &mut Taxonomy, number: u32)
    requires few { taxonomy.old.props ≤ V3_MAX_PROPS }
    requires number { number < taxonomy.old.props }
    requires names { dict.now.props ≡ taxonomy.old.props }
    requires bits { length declared.now ≡ taxonomy.old.props }
    requires ordered { TestsAreOrdered dict.now taxonomy.old }
    requires room { edge_count taxonomy.old < edge_room taxonomy.old.props }
    ensures { RemovesTest dict.now declared.now number taxonomy.old taxonomy.new }
{
    let weaker = neighbour(dict, declared, number, Side::Weaker);
    let stronger = neighbour(dict, declared, number, Side::Stronger);
    unlink_pair(dict, taxonomy, Some(number), weaker);
    unlink_pair(dict, taxonomy, stronger, Some(number));
    link_pair(dict, declared, taxonomy, stronger, weaker);
}
