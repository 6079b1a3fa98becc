// The reader: 1, then 2 to 5 field by field, then 6 to 10 over the whole file.
ghost use Rattle.std.specs.Prelude.{◌≡◌, ◌≤◌, length};
ghost use Rattle.file_tables.specs.Tables.{tables};
ghost use Rattle.file_checks.specs.Judged.{Formed, Judged};
ghost use Rattle.file_checks.specs.Told.{Told};
ghost use Rattle.prepare.specs.File.{TablesLent, Reads};
ghost use Rattle.refusals.specs.Numbers.{told};

use file_checks::judge;
use file_form::fill::{Counts, fill};
use file_tables::{NodeId, TextId};
use refusals::Refusal;

// The first refusal of 6 to 10, with working memory of its own.
pub fn judged(
    nodes: &[[u32; 8]],
    edges: &[u32],
    choices: &[u32],
    texts: &[[u32; 3]],
    bytes: &[u8],
    annotations: u32,
    root: NodeId,
    space: TextId,
) -> Result<(), Refusal>
    requires formed { Formed (tables nodes.now edges.now choices.now texts.now bytes.now annotations root.0 space.0) }
    requires choices_len_bound { length choices.now ≤ 16384 }
    ensures { Judged (tables nodes.now edges.now choices.now texts.now bytes.now annotations root.0 space.0) (told result) }
{
    let mut colours = [0u8; 4096];
    let mut stack = [0u32; 16384];
    judge(
        nodes,
        edges,
        choices,
        texts,
        bytes,
        annotations,
        root,
        space,
        &mut colours,
        &mut stack,
    )
}

// The refusal of a file's form by its number, 2 to 5 (0: none).
fn form_told(fault: u32) -> Result<(), Refusal>
    requires { (fault ≡ 0 → ⊥) → (2 ≤ fault) × (fault ≤ 5) }
    ensures { told result ≡ fault }
{
    match fault {
        0 => Ok(()),
        2 => Err(Refusal::Short),
        3 => Err(Refusal::Form),
        4 => Err(Refusal::Limit),
        _ => Err(Refusal::Surplus),
    }
}

// A file into tables that are lent at their limits.
pub fn read_lent(
    file: &[u8],
    nodes: &mut [[u32; 8]],
    edges: &mut [u32],
    choices: &mut [u32],
    texts: &mut [[u32; 3]],
    bytes: &mut [u8],
) -> Result<Counts, Refusal>
    requires { TablesLent (length nodes.old) (length edges.old) (length choices.old) (length texts.old) (length bytes.old) }
    ensures { Reads file.now (TablesLent (length nodes.old) (length edges.old) (length choices.old) (length texts.old) (length bytes.old)) nodes.new edges.new choices.new texts.new bytes.new result }
{
    let f = fill(file, nodes, edges, choices, texts, bytes);
    form_told(f.fault)?;
    let n = f.counts;
    judged(
        &nodes[..n.nodes as usize],
        &edges[..n.edges as usize],
        &choices[..n.choices as usize],
        &texts[..n.texts as usize],
        &bytes[..n.bytes as usize],
        n.annotations,
        n.root,
        n.space,
    )?;
    Ok(n)
}

// Whether each table is lent at its limit (1 where one is not).
pub fn tables_lent(nodes: usize, edges: usize, choices: usize, texts: usize, bytes: usize) -> bool
    ensures { Told (TablesLent nodes edges choices texts bytes) result }
{
    4096 <= nodes && 16384 <= edges && 16384 <= choices && 4096 <= texts && 65536 <= bytes
}

pub fn read(
    file: &[u8],
    nodes: &mut [[u32; 8]],
    edges: &mut [u32],
    choices: &mut [u32],
    texts: &mut [[u32; 3]],
    bytes: &mut [u8],
) -> Result<Counts, Refusal>
    ensures { Reads file.now (TablesLent (length nodes.old) (length edges.old) (length choices.old) (length texts.old) (length bytes.old)) nodes.new edges.new choices.new texts.new bytes.new result }
{
    if !tables_lent(
        nodes.len(),
        edges.len(),
        choices.len(),
        texts.len(),
        bytes.len(),
    ) {
        return Err(Refusal::Order);
    }
    read_lent(file, nodes, edges, choices, texts, bytes)
}
