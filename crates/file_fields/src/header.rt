// The header: a map byte, five counts, the root and the space text.
ghost use Rattle.std.specs.Prelude.{◌≡◌};
ghost use Rattle.file_fields.specs.Header.{header_at};

use crate::{START, Step, byte_at, count_at, field_at, formed};

// The header's numbers, and the step after it.
#[derive(Clone, Copy)]
pub struct Header {
    pub nodes: u32,
    pub edges: u32,
    pub texts: u32,
    pub annotations: u32,
    pub choices: u32,
    pub root: u32,
    pub space: u32,
    pub next: Step,
}

pub fn header_at(s: &[u8]) -> Header
    ensures { result ≡ header_at s.now }
{
    let map = formed(127, byte_at(s, START));
    let m = map.value;
    let nodes = count_at(s, m / 1 % 2 == 1, 1, 4096, map);
    let edges = count_at(s, m / 2 % 2 == 1, 0, 16384, nodes);
    let texts = count_at(s, m / 4 % 2 == 1, 1, 4096, edges);
    let annotations = count_at(s, m / 8 % 2 == 1, 0, 4096, texts);
    let choices = count_at(s, m / 16 % 2 == 1, 0, 16384, annotations);
    let root = field_at(s, m / 32 % 2 == 1, choices);
    let space = field_at(s, m / 64 % 2 == 1, root);
    Header {
        nodes: nodes.value,
        edges: edges.value,
        texts: texts.value,
        annotations: annotations.value,
        choices: choices.value,
        root: root.value,
        space: space.value,
        next: space,
    }
}
