// A whole file, field by field, into lent tables.
ghost use Rattle.std.specs.Prelude.{◌≤◌, length};
ghost use Rattle.file_form.specs.Form.{Filling};

use crate::nodes::nodes_at;
use crate::numbers::{numbers_at, surplus};
use crate::texts::texts_at;
use file_fields::header::header_at;
use file_tables::{NodeId, TextId};

// How many of each there are, and the root and the space text.
#[derive(Clone, Copy)]
pub struct Counts {
    pub nodes: u32,
    pub edges: u32,
    pub choices: u32,
    pub texts: u32,
    pub bytes: u32,
    pub annotations: u32,
    pub root: NodeId,
    pub space: TextId,
}

// What was counted, and the first refusal of 2 to 5 (0: none), beside each other: the counts are promised after a refusal too (`Filling`).
#[derive(Clone, Copy)]
pub struct Filled {
    pub counts: Counts,
    pub fault: u32,
}

pub fn fill(
    s: &[u8],
    nodes: &mut [[u32; 8]],
    edges: &mut [u32],
    choices: &mut [u32],
    texts: &mut [[u32; 3]],
    bytes: &mut [u8],
) -> Filled
    requires in_bounds { 4096 ≤ length nodes.old }
    requires in_bounds_2 { 16384 ≤ length edges.old }
    requires in_bounds_3 { 16384 ≤ length choices.old }
    requires in_bounds_4 { 4096 ≤ length texts.old }
    requires in_bounds_5 { 65536 ≤ length bytes.old }
    ensures { Filling s.now result nodes.new edges.new choices.new texts.new bytes.new }
{
    let h = header_at(s);
    let q = nodes_at(s, h.next, h.nodes as usize, nodes);
    let r = numbers_at(s, q, h.edges as usize, edges);
    let u = numbers_at(s, r, h.choices as usize, choices);
    let v = texts_at(s, u, h.texts as usize, texts, bytes);
    let w = surplus(s, v.next);
    Filled {
        counts: Counts {
            nodes: h.nodes,
            edges: h.edges,
            choices: h.choices,
            texts: h.texts,
            bytes: v.total as u32,
            annotations: h.annotations,
            root: NodeId(h.root),
            space: TextId(h.space),
        },
        fault: w.fault,
    }
}
