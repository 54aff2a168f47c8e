ghost use Rattle.std.specs.Prelude.{◌≡◌, ℕ, ◌<◌, length, IfOk, IfErr};
ghost use Rattle.lis_taxonomy.specs.Inside.{AreInOrder, IsPlace, IsGap, edge_at};

use lis_limits::V3_MAX_PROPS;

// How many of these edges come before the edge from p to q.
pub(crate) fn place_of(edges: &[(u32, u32)], p: u32, q: u32) -> usize
    requires order { (props : ℕ) × AreInOrder edges.now props }
    requires q { q < V3_MAX_PROPS }
    ensures { IsPlace edges.now p q result }
{
    edges.partition_point(|edge| edge.0 < p || edge.0 == p && edge.1 < q)
}

// The place of the edge from p to q, or else the place that it would have.
pub(crate) fn find(edges: &[(u32, u32)], p: u32, q: u32) -> Result<usize, usize>
    requires { (props : ℕ) × AreInOrder edges.now props × (q < props) }
    ensures found { IfOk result (λ k. (k < length edges.now) × (edge_at edges.now k ≡ (p, q))) }
    ensures absent { IfErr result (λ k. IsGap edges.now p q k) }
{
    let place = place_of(edges, p, q);
    if place == edges.len() {
        return Err(place);
    }
    if edges[place] == (p, q) {
        Ok(place)
    } else {
        Err(place)
    }
}
