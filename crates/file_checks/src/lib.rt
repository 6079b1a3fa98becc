// What must hold of a whole file, over its tables: the refusals 6 to 10 (references, texts, space, no circle, choice lists).
#![tactic(auto)]

ghost use Rattle.std.specs.Prelude.{◌≤◌, length};
ghost use Rattle.file_checks.specs.Descent.{Closed};
ghost use Rattle.file_checks.specs.Search.{ListsInside, GraphJudged};
ghost use Rattle.file_checks.specs.Judged.{tables, Formed, Judged};
ghost use Rattle.refusals.specs.Numbers.{told};

use crate::circle::circle;
use crate::lists::lists_right;
use crate::names::references;
use crate::texts::{space_ok, texts_ok};
use file_tables::{NodeId, TextId};
use refusals::Refusal;

pub mod circle;
pub mod lists;
pub mod names;
pub mod texts;

// How many there are of each.
#[derive(Clone, Copy)]
pub struct Lengths {
    pub nodes: usize,
    pub edges: usize,
    pub choices: usize,
    pub texts: usize,
    pub annotations: u32,
}

// 9 or 10, or neither.
fn judge_graph(
    nodes: &[[u32; 8]],
    edges: &[u32],
    choices: &[u32],
    colours: &mut [u8],
    stack: &mut [u32],
) -> Result<(), Refusal>
    requires nodes_len_bound { length nodes.now ≤ 4096 }
    requires closed { Closed nodes.now edges.now }
    requires lists_inside { ListsInside nodes.now choices.now }
    requires nodes_in_bounds { length nodes.now ≤ length colours.old }
    requires choices_in_bounds { length choices.now ≤ length stack.old }
    ensures { GraphJudged nodes.now edges.now choices.now (told result) }
{
    if circle(nodes, edges, colours) {
        return Err(Refusal::Circle);
    }
    if !lists_right(nodes, choices, stack) {
        return Err(Refusal::List);
    }
    Ok(())
}

// The first refusal of 6 to 10. Of the working memory, `colours` has a place for each node and `stack` one for each choice edge;
// what stands there at entry does not matter.
pub fn judge(
    nodes: &[[u32; 8]],
    edges: &[u32],
    choices: &[u32],
    texts: &[[u32; 3]],
    bytes: &[u8],
    annotations: u32,
    root: NodeId,
    space: TextId,
    colours: &mut [u8],
    stack: &mut [u32],
) -> Result<(), Refusal>
    requires formed { Formed (tables nodes.now edges.now choices.now texts.now bytes.now annotations root.0 space.0) }
    requires nodes_in_bounds { length nodes.now ≤ length colours.old }
    requires choices_in_bounds { length choices.now ≤ length stack.old }
    ensures { Judged (tables nodes.now edges.now choices.now texts.now bytes.now annotations root.0 space.0) (told result) }
{
    if !references(nodes, edges, choices, texts, annotations, root, space) {
        return Err(Refusal::Reference);
    }
    if !texts_ok(texts, bytes) {
        return Err(Refusal::Text);
    }
    if !space_ok(texts, bytes, space) {
        return Err(Refusal::Space);
    }
    judge_graph(nodes, edges, choices, colours, stack)
}
