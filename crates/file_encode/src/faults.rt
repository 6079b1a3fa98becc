// The refusals 3 and 4 of tables, in file order.
ghost use Rattle.std.specs.Prelude.{◌≡◌, ◌≤◌, length};
ghost use Rattle.file_tables.specs.Tables.{byte_start};
ghost use Rattle.file_encode.specs.Encode.{node_map, Wide};
ghost use Rattle.file_encode.specs.Faults.{node_is_right, nodes_fault, texts_fault, count_fault, header_fault};
ghost use Rattle.refusals.specs.Numbers.{told};

use file_form::kinds::{map_right, pair_right};
use refusals::Refusal;

// The map byte of a node's row.
#[tactic(auto, unfolding(crate::specs::Encode::node_map, crate::specs::Encode::map_of))]
pub fn node_map(row: [u32; 8]) -> u32
    ensures { (result ≡ node_map row) × (result ≤ 63) }
{
    u32::from(0 < row[1])
        + u32::from(0 < row[2]) * 2
        + u32::from(row[3] == 1) * 4
        + u32::from(0 < row[5]) * 8
        + u32::from(0 < row[6]) * 16
        + u32::from(0 < row[7]) * 32
}

// A row has its width by its type, which a caller learns here.
#[tactic(auto, unfolding(crate::specs::Faults::node_is_right))]
pub fn node_right(row: [u32; 8]) -> bool
    ensures { (result ≡ node_is_right row) × (length row ≡ 8) }
{
    let m = node_map(row);
    map_right(m) && pair_right(m, row[0]) && row[3] <= 1 && (row[4] == 0 || row[3] == 1)
}

#[tactic(auto, using(crate::proofs::Laws::nodes_wrong, crate::proofs::Laws::nodes_on, crate::proofs::Laws::nodes_end))]
pub fn nodes_fault(nodes: &[[u32; 8]]) -> Result<(), Refusal>
    ensures value { told result ≡ nodes_fault nodes.now }
    ensures wide { told result ≡ 0 → Wide 8 nodes.now (length nodes.now) }
{
    for row in nodes {
        if !node_right(*row) {
            return Err(Refusal::Form);
        }
    }
    Ok(())
}

// Where a text's bytes start.
pub fn text_start(row: [u32; 3]) -> usize
    ensures { (result ≡ byte_start row) × (length row ≡ 3) }
{
    row[2] as usize
}

#[tactic(auto, using(crate::proofs::Laws::texts_start, crate::proofs::Laws::texts_limit, crate::proofs::Laws::texts_on, crate::proofs::Laws::texts_end))]
pub fn texts_fault(texts: &[[u32; 3]]) -> Result<(), Refusal>
    ensures value { told result ≡ texts_fault 0 texts.now }
    ensures wide { told result ≡ 0 → Wide 3 texts.now (length texts.now) }
{
    let mut total: usize = 0;
    for row in texts {
        if text_start(*row) != total {
            return Err(Refusal::Form);
        }
        total += row[1] as usize;
        if total > 65536 {
            return Err(Refusal::Limit);
        }
    }
    Ok(())
}

pub fn count_fault(low: u32, high: u32, n: u32) -> Result<(), Refusal>
    ensures { told result ≡ count_fault low high n }
{
    if n < low || high < n {
        Err(Refusal::Limit)
    } else {
        Ok(())
    }
}

#[tactic(auto, unfolding(crate::specs::Faults::header_fault))]
pub fn header_fault(n: u32, e: u32, x: u32, a: u32, c: u32) -> Result<(), Refusal>
    ensures { told result ≡ header_fault n e x a c }
{
    count_fault(1, 4096, n)?;
    count_fault(0, 16384, e)?;
    count_fault(1, 4096, x)?;
    count_fault(0, 4096, a)?;
    count_fault(0, 16384, c)
}
