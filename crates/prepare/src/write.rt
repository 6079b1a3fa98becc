// The writer: 1, then 3 and 4 in file order, then 6 to 10, then 20, and only then the bytes.
ghost use Rattle.std.specs.Prelude.{◌≡◌, ℕ, ◌≤◌, ◌<◌, List, length, take};
ghost use Rattle.file_encode.specs.Encode.{lengths, Wide, Sized};
ghost use Rattle.file_encode.specs.Faults.{tables_fault};
ghost use Rattle.file_tables.specs.Tables.{tables};
ghost use Rattle.file_checks.specs.Judged.{Judged};
ghost use Rattle.prepare.specs.Writing.{file_counts, lent_tables, LentAt, Cut, Writes, refusing};
ghost use Rattle.refusals.specs.Numbers.{told};

use crate::read::judged;
use file_encode::faults::{header_fault, nodes_fault, texts_fault};
use file_form::fill::Counts;
use file_put::{put_tables, text_total};
use file_tables::{NodeId, TextId};
use refusals::Refusal;

// The counts that a file has, and its root and space text. How many bytes the texts have together is not among them: the lengths say it.
#[derive(Clone, Copy)]
pub struct FileCounts {
    pub nodes: u32,
    pub edges: u32,
    pub choices: u32,
    pub texts: u32,
    pub annotations: u32,
    pub root: NodeId,
    pub space: TextId,
}

// Those of a file that was read.
pub fn file_counts(n: Counts) -> FileCounts
    ensures { result ≡ file_counts n }
{
    FileCounts {
        nodes: n.nodes,
        edges: n.edges,
        choices: n.choices,
        texts: n.texts,
        annotations: n.annotations,
        root: n.root,
        space: n.space,
    }
}

// The refusal and, for 20, how many bytes the file has.
#[derive(Clone, Copy)]
pub struct Unwritten {
    pub refusal: Refusal,
    pub needed: usize,
}

// A refusal for which the length of `out` does not matter.
impl From<Refusal> for Unwritten {
    ghost from_gives = { λ r u. u ≡ refusing r 0 };

    fn from(refusal: Refusal) -> Unwritten {
        Unwritten { refusal, needed: 0 }
    }
}

// The first refusal of 3 and 4.
fn tables_fault(n: FileCounts, nodes: &[[u32; 8]], texts: &[[u32; 3]]) -> Result<(), Refusal>
    requires { (length nodes.now ≡ n.nodes) × (length texts.now ≡ n.texts) }
    ensures by_index { (edges choices bytes : List ℕ) (root space : ℕ) → length edges ≡ n.edges → length choices ≡ n.choices → told result ≡ tables_fault (tables nodes.now edges choices texts.now bytes n.annotations root space) }
    ensures wide { told result ≡ 0 → Wide 8 nodes.now (length nodes.now) × Wide 3 texts.now (length texts.now) }
{
    header_fault(n.nodes, n.edges, n.texts, n.annotations, n.choices)?;
    nodes_fault(nodes)?;
    texts_fault(texts)
}

// Tables that are refused by nothing but 20. The file is measured by putting it where there is no room for it.
fn write_right(
    n: FileCounts,
    nodes: &[[u32; 8]],
    edges: &[u32],
    choices: &[u32],
    texts: &[[u32; 3]],
    bytes: &[u8],
    out: &mut [u8],
) -> Result<usize, Unwritten>
    requires space_value { tables_fault (tables nodes.now edges.now choices.now texts.now bytes.now n.annotations n.root.0 n.space.0) ≡ 0 }
    requires sized { Sized (tables nodes.now edges.now choices.now texts.now bytes.now n.annotations n.root.0 n.space.0) }
    requires judged { Judged (tables nodes.now edges.now choices.now texts.now bytes.now n.annotations n.root.0 n.space.0) 0 }
    ensures { Writes (tables nodes.now edges.now choices.now texts.now bytes.now n.annotations n.root.0 n.space.0) (length bytes.now ≡ lengths texts.now) out.old out.new result }
{
    let root = n.root.0;
    let space = n.space.0;
    let mut nowhere = [0u8; 1];
    let size = put_tables(
        &mut nowhere,
        nodes,
        edges,
        choices,
        texts,
        bytes,
        n.annotations,
        root,
        space,
    );
    if out.len() < size {
        return Err(Unwritten {
            refusal: Refusal::Output,
            needed: size,
        });
    }
    let done = put_tables(
        out,
        nodes,
        edges,
        choices,
        texts,
        bytes,
        n.annotations,
        root,
        space,
    );
    Ok(done)
}

// Tables that are lent at their counts.
fn write_tables(
    n: FileCounts,
    nodes: &[[u32; 8]],
    edges: &[u32],
    choices: &[u32],
    texts: &[[u32; 3]],
    bytes: &[u8],
    out: &mut [u8],
) -> Result<usize, Unwritten>
    requires cut { Cut n nodes.now edges.now choices.now texts.now }
    requires bytes_len { length bytes.now ≡ lengths texts.now }
    ensures { Writes (tables nodes.now edges.now choices.now texts.now bytes.now n.annotations n.root.0 n.space.0) (length bytes.now ≡ lengths texts.now) out.old out.new result }
{
    tables_fault(n, nodes, texts)?;
    judged(
        nodes,
        edges,
        choices,
        texts,
        bytes,
        n.annotations,
        n.root,
        n.space,
    )?;
    write_right(n, nodes, edges, choices, texts, bytes, out)
}

// The bytes are cut at the sum of the lengths.
fn write_cut(
    n: FileCounts,
    nodes: &[[u32; 8]],
    edges: &[u32],
    choices: &[u32],
    texts: &[[u32; 3]],
    bytes: &[u8],
    out: &mut [u8],
) -> Result<usize, Unwritten>
    requires { Cut n nodes.now edges.now choices.now texts.now }
    ensures { Writes (tables nodes.now edges.now choices.now texts.now (take (lengths texts.now) bytes.now) n.annotations n.root.0 n.space.0) (lengths texts.now ≤ length bytes.now) out.old out.new result }
{
    let total = text_total(texts);
    if bytes.len() < total {
        return Err(Refusal::Order.into());
    }
    write_tables(n, nodes, edges, choices, texts, &bytes[..total], out)
}

// Tables of any content.
pub fn write(
    n: FileCounts,
    nodes: &[[u32; 8]],
    edges: &[u32],
    choices: &[u32],
    texts: &[[u32; 3]],
    bytes: &[u8],
    out: &mut [u8],
) -> Result<usize, Unwritten>
    ensures { Writes (lent_tables n nodes.now edges.now choices.now texts.now bytes.now) (LentAt n nodes.now edges.now choices.now texts.now bytes.now) out.old out.new result }
{
    let a = n.nodes as usize;
    let b = n.edges as usize;
    let c = n.choices as usize;
    let d = n.texts as usize;
    if nodes.len() < a || edges.len() < b || choices.len() < c || texts.len() < d {
        return Err(Refusal::Order.into());
    }
    write_cut(
        n,
        &nodes[..a],
        &edges[..b],
        &choices[..c],
        &texts[..d],
        bytes,
        out,
    )
}
