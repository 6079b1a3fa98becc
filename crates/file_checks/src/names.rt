// Refusal 6: whether every number names something.
ghost use Rattle.std.specs.Prelude.{◌≡◌, List, ℕ, ◌+◌, ◌≤◌, ◌<◌};
ghost use Rattle.std.proofs.Math.Option.{some};
ghost use Rattle.file_tables.specs.Tables.{flat, choice_start, choice_length};
ghost use Rattle.file_checks.specs.Told.{Told};
ghost use Rattle.file_checks.specs.References.{Numbers, KindNamed, Named, RowsNamed, References};
ghost use Rattle.file_checks.specs.Judged.{tables};

use crate::Lengths;
use file_tables::{Kind, NodeId, TextId};

// Whether each number is below n.
fn numbers(xs: &[u32], n: usize) -> bool
    ensures { Told (Numbers n xs.now) result }
{
    xs.iter().all(|x| (*x as usize) < n)
}

// Whether what a node's kind says of its first and second names something. The end of a range is below 2^33.
fn kind_named(row: [u32; 8], n: Lengths) -> bool
    ensures { Told (KindNamed n row) result }
{
    let Ok(kind) = Kind::try_from(row[0]) else {
        return true;
    };
    let first = row[1] as usize;
    let second = row[2] as usize;
    match kind {
        Kind::Empty | Kind::Break | Kind::HardLine => true,
        Kind::Text => first < n.texts,
        Kind::Seq | Kind::Fill => first + second <= n.edges,
        Kind::Group | Kind::Align => first < n.nodes,
        Kind::Nest | Kind::Penalty => second < n.nodes,
        Kind::Choice => first < n.nodes && second < n.nodes,
        Kind::Annotate => row[1] < n.annotations && second < n.nodes,
    }
}

fn flat_named(row: [u32; 8], n: Lengths) -> bool
    ensures { Told ((j : ℕ) → flat row ≡ some j → j < n.nodes) result }
{
    row[3] != 1 || (row[4] as usize) < n.nodes
}

fn list_named(row: [u32; 8], n: Lengths) -> bool
    ensures { Told ((choice_length row ≡ 0 → ⊥) → choice_start row + choice_length row ≤ n.choices) result }
{
    row[6] == 0 || row[5] as usize + row[6] as usize <= n.choices
}

fn named(row: [u32; 8], n: Lengths) -> bool
    ensures { Told (Named n row) result }
{
    kind_named(row, n) && flat_named(row, n) && list_named(row, n)
}

fn rows_named(nodes: &[[u32; 8]], n: Lengths) -> bool
    ensures { Told (RowsNamed n nodes.now) result }
{
    nodes.iter().all(|row| named(*row, n))
}

// Whether all that stands in the tables names something, whatever the bytes of the texts.
pub fn references(
    nodes: &[[u32; 8]],
    edges: &[u32],
    choices: &[u32],
    texts: &[[u32; 3]],
    annotations: u32,
    root: NodeId,
    space: TextId,
) -> bool
    ensures { (bytes : List ℕ) → Told (References (tables nodes.now edges.now choices.now texts.now bytes annotations root.0 space.0)) result }
{
    let n = Lengths {
        nodes: nodes.len(),
        edges: edges.len(),
        choices: choices.len(),
        texts: texts.len(),
        annotations,
    };
    (root.0 as usize) < n.nodes
        && (space.0 as usize) < n.texts
        && numbers(edges, n.nodes)
        && numbers(choices, n.nodes)
        && rows_named(nodes, n)
}
