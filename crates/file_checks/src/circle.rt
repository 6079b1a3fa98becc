// Refusal 9: whether some node leads back to itself, by a search in depth with colours.
ghost use Rattle.std.specs.Prelude.{◌≡◌, [], ℕ, ◌≤◌, ◌<◌, length, get_or, drop};
ghost use Rattle.file_checks.specs.Told.{Told};
ghost use Rattle.file_checks.specs.Circle.{Circle};
ghost use Rattle.file_checks.specs.Descent.{Closed};
ghost use Rattle.file_checks.specs.Search.{degree, target, Walking, Turned, Searched};

use file_tables::{Kind, NodeId, node_word};

// How many nodes a node refers to.
#[tactic(auto, unfolding(crate::specs::Search::degree_of))]
fn degree(nodes: &[[u32; 8]], i: usize) -> u32
    ensures { result ≡ degree nodes.now i }
{
    let Ok(kind) = Kind::try_from(node_word(nodes, i, 0)) else {
        return 0;
    };
    match kind {
        Kind::Empty | Kind::Text | Kind::Break | Kind::HardLine => 0,
        Kind::Seq | Kind::Fill => node_word(nodes, i, 2),
        Kind::Group => {
            let child = node_word(nodes, i, 1);
            1 + u32::from(node_word(nodes, child as usize, 3) == 1)
        }
        Kind::Choice => 2,
        Kind::Nest | Kind::Align | Kind::Annotate | Kind::Penalty => 1,
    }
}

// The k-th of them.
#[tactic(auto, unfolding(crate::specs::Search::target_of))]
fn target(nodes: &[[u32; 8]], edges: &[u32], i: usize, k: u32) -> NodeId
    ensures { result.0 ≡ target nodes.now edges.now i k }
{
    let first = node_word(nodes, i, 1);
    let second = node_word(nodes, i, 2);
    NodeId(match Kind::try_from(node_word(nodes, i, 0)) {
        Ok(Kind::Seq | Kind::Fill) => {
            let edge = first as usize + k as usize;
            edges.get(edge).copied().unwrap_or(0)
        }
        Ok(Kind::Group) if k > 0 => node_word(nodes, first as usize, 4),
        Ok(Kind::Choice) if k > 0 => second,
        Ok(Kind::Group | Kind::Choice | Kind::Align) => first,
        _ => second,
    })
}

// A turn of the search at the last row of the way, which grows down from the end of `way` and stands there from `top` on: where its last row
// stands afterwards, or none where the turn closed a circle. A node that is entered stays the next reference of the one before it, which passes
// over it once it is done.
fn advance(
    nodes: &[[u32; 8]],
    edges: &[u32],
    cs: &mut [u8],
    way: &mut [[u32; 2]],
    top: usize,
) -> Option<usize>
    requires closed { Closed nodes.now edges.now }
    requires walking { Walking nodes.now edges.now cs.old (drop top way.old) }
    requires cs_in_bounds { length cs.old ≤ length way.old }
    requires top_in_bounds { top < length way.old }
    ensures { Turned nodes.now edges.now cs.old way.old top cs.new way.new result }
{
    let [at, k] = way[top];
    let i = at as usize;
    if degree(nodes, i) <= k {
        cs[i] = 2;
        return Some(top + 1);
    }
    let next = target(nodes, edges, i, k);
    let to = next.0 as usize;
    match cs[to] {
        0 => {
            let place = top - 1;
            cs[to] = 1;
            way[place] = [next.0, 0];
            Some(place)
        }
        1 => None,
        _ => {
            way[top] = [at, k + 1];
            Some(top)
        }
    }
}

// Whether a node that is not seen yet leads into a circle.
fn search(
    nodes: &[[u32; 8]],
    edges: &[u32],
    node: NodeId,
    cs: &mut [u8],
    way: &mut [[u32; 2]],
) -> bool
    requires node_in_bounds { node.0 < length nodes.now }
    requires node_value { get_or cs.old node.0 0 ≡ 0 }
    requires closed { Closed nodes.now edges.now }
    requires walking { Walking nodes.now edges.now cs.old [] }
    requires cs_in_bounds { length cs.old ≤ length way.old }
    ensures { Searched nodes.now edges.now cs.old cs.new node.0 result }
{
    let i = node.0 as usize;
    cs[i] = 1;
    let mut top = way.len() - 1;
    way[top] = [node.0, 0];
    // A while loop: the way grows and shrinks, so there is no range to go over.
    while top < way.len() {
        let Some(place) = advance(nodes, edges, cs, way, top) else {
            return true;
        };
        top = place;
    }
    false
}

// The search from each node in turn.
fn sweep(nodes: &[[u32; 8]], edges: &[u32], cs: &mut [u8], way: &mut [[u32; 2]]) -> bool
    requires closed { Closed nodes.now edges.now }
    requires walking { Walking nodes.now edges.now cs.old [] }
    requires cs_in_bounds { length cs.old ≤ length way.old }
    requires nodes_len_bound { length nodes.now ≤ 4096 }
    ensures { Told (Circle nodes.now edges.now) result }
{
    for i in 0..nodes.len() {
        if cs[i] == 0 && search(nodes, edges, NodeId(i as u32), cs, way) {
            return true;
        }
    }
    false
}

// `colours` has a place for each node; what stands there at entry does not matter.
pub fn circle(nodes: &[[u32; 8]], edges: &[u32], colours: &mut [u8]) -> bool
    requires nodes_in_bounds { length nodes.now ≤ length colours.old }
    requires closed { Closed nodes.now edges.now }
    requires nodes_len_bound { length nodes.now ≤ 4096 }
    ensures { Told (Circle nodes.now edges.now) result }
{
    colours.fill(0);
    // a row for each node at most
    let mut way = [[0; 2]; 4096];
    sweep(nodes, edges, &mut colours[..nodes.len()], &mut way)
}
