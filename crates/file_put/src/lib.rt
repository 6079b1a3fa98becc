// The writer's bytes: tables put one after the other. A byte that has no place is not put.
#![tactic(auto)]

ghost use Rattle.std.specs.Prelude.{◌≡◌, ◌+◌, ◌*◌, ◌≤◌, ◌<◌, length, set};
ghost use Rattle.file_tables.specs.Tables.{kind, tables};
ghost use Rattle.file_put.specs.Put.{Put};
ghost use Rattle.file_encode.specs.Encode.{enc32, enc_if, header_map, enc_header, enc_node, text_map, enc_text, enc_texts, each, lengths, encode};
ghost use Rattle.file_encode.specs.Faults.{nodes_fault, texts_fault, tables_fault};

use file_encode::faults::node_map;

fn put(out: &mut [u8], at: usize, b: u8)
    ensures { out.new ≡ set out.old at b }
{
    if at < out.len() {
        out[at] = b;
    }
}

fn put_bytes(out: &mut [u8], at: usize, part: &[u8]) -> usize
    requires { (at ≤ 1000000) × (length part.now ≤ 65536) }
    ensures { Put out.old out.new at result part.now }
{
    for (i, b) in part.iter().enumerate() {
        put(out, at + i, *b);
    }
    at + part.len()
}

fn put_word(out: &mut [u8], at: usize, v: u32) -> usize
    requires { at ≤ 1000000 }
    ensures { Put out.old out.new at result (enc32 v) }
{
    put_bytes(out, at, &v.to_le_bytes())
}

fn put_if(out: &mut [u8], at: usize, on: bool, v: u32) -> usize
    requires { at ≤ 1000000 }
    ensures { Put out.old out.new at result (enc_if on v) × (result ≤ at + 4) }
{
    if on { put_word(out, at, v) } else { at }
}

fn put_node(out: &mut [u8], at: usize, row: [u32; 8]) -> usize
    requires { (at ≤ 900000) × (kind row < 256) }
    ensures { Put out.old out.new at result (enc_node row) × (result ≤ at + 26) }
{
    let m = node_map(row);
    put(out, at, m as u8);
    put(out, at + 1, row[0] as u8);
    let a = put_if(out, at + 2, 0 < row[1], row[1]);
    let b = put_if(out, a, 0 < row[2], row[2]);
    let c = put_if(out, b, row[3] == 1, row[4]);
    let d = put_if(out, c, 0 < row[5], row[5]);
    let e = put_if(out, d, 0 < row[6], row[6]);
    put_if(out, e, 0 < row[7], row[7])
}

#[tactic(auto, using(crate::proofs::Laws::kind_byte, crate::proofs::Laws::none), unfolding(file_encode::specs::Encode::each))]
fn put_nodes(out: &mut [u8], at: usize, nodes: &[[u32; 8]]) -> usize
    requires { (at ≤ 100) × ((length nodes.now ≤ 4096) × (nodes_fault nodes.now ≡ 0)) }
    ensures { Put out.old out.new at result (each enc_node nodes.now) × (result ≤ at + 26 * length nodes.now) }
{
    let mut next = at;
    for row in nodes {
        next = put_node(out, next, *row);
    }
    next
}

#[tactic(auto, using(crate::proofs::Laws::none), unfolding(file_encode::specs::Encode::each))]
fn put_numbers(out: &mut [u8], at: usize, xs: &[u32]) -> usize
    requires { (at ≤ 300000) × (length xs.now ≤ 16384) }
    ensures { Put out.old out.new at result (each enc32 xs.now) × (result ≤ at + 4 * length xs.now) }
{
    let mut next = at;
    for x in xs {
        next = put_word(out, next, *x);
    }
    next
}

#[tactic(auto, unfolding(file_encode::specs::Encode::text_map, file_encode::specs::Encode::map_of))]
fn text_map(row: [u32; 3]) -> u32
    ensures { (result ≡ text_map row) × (result ≤ 3) }
{
    u32::from(0 < row[0]) + u32::from(0 < row[1]) * 2
}

fn put_text(out: &mut [u8], at: usize, row: [u32; 3], part: &[u8]) -> usize
    requires { (at ≤ 800000) × (length part.now ≤ 65536) }
    ensures { Put out.old out.new at result (enc_text row part.now) × (result ≤ at + 9 + length part.now) }
{
    let m = text_map(row);
    put(out, at, m as u8);
    let a = put_if(out, at + 1, 0 < row[0], row[0]);
    let b = put_if(out, a, 0 < row[1], row[1]);
    put_bytes(out, b, part)
}

#[tactic(auto, using(crate::proofs::Laws::none), unfolding(file_encode::specs::Encode::enc_texts, file_encode::specs::Encode::lengths))]
fn put_texts(out: &mut [u8], at: usize, texts: &[[u32; 3]], bytes: &[u8]) -> usize
    requires { (at ≤ 400000) × ((length texts.now ≤ 4096) × ((texts_fault 0 texts.now ≡ 0) × (length bytes.now ≡ lengths texts.now))) }
    ensures { Put out.old out.new at result (enc_texts texts.now bytes.now) × (result ≤ at + 9 * length texts.now + length bytes.now) }
{
    let mut next = at;
    let mut total = 0;
    for row in texts {
        let end = total + row[1] as usize;
        next = put_text(out, next, *row, &bytes[total..end]);
        total = end;
    }
    next
}

#[tactic(auto, unfolding(file_encode::specs::Encode::header_map, file_encode::specs::Encode::map_of))]
fn header_map(n: u32, e: u32, x: u32, a: u32, c: u32, r: u32, w: u32) -> u32
    ensures { (result ≡ header_map n e x a c r w) × (result ≤ 127) }
{
    u32::from(0 < n)
        + u32::from(0 < e) * 2
        + u32::from(0 < x) * 4
        + u32::from(0 < a) * 8
        + u32::from(0 < c) * 16
        + u32::from(0 < r) * 32
        + u32::from(0 < w) * 64
}

fn put_header(out: &mut [u8], n: u32, e: u32, x: u32, a: u32, c: u32, r: u32, w: u32) -> usize
    ensures { Put out.old out.new 0 result (enc_header n e x a c r w) × (result ≤ 29) }
{
    let m = header_map(n, e, x, a, c, r, w);
    put(out, 0, m as u8);
    let p1 = put_if(out, 1, 0 < n, n);
    let p2 = put_if(out, p1, 0 < e, e);
    let p3 = put_if(out, p2, 0 < x, x);
    let p4 = put_if(out, p3, 0 < a, a);
    let p5 = put_if(out, p4, 0 < c, c);
    let p6 = put_if(out, p5, 0 < r, r);
    put_if(out, p6, 0 < w, w)
}

// The whole file of right tables, at most 339,997 bytes.
pub fn put_tables(
    out: &mut [u8],
    nodes: &[[u32; 8]],
    edges: &[u32],
    choices: &[u32],
    texts: &[[u32; 3]],
    bytes: &[u8],
    annotations: u32,
    root: u32,
    space: u32,
) -> usize
    requires space_value { tables_fault (tables nodes.now edges.now choices.now texts.now bytes.now annotations root space) ≡ 0 }
    requires bytes_len { length bytes.now ≡ lengths texts.now }
    ensures { Put out.old out.new 0 result (encode (tables nodes.now edges.now choices.now texts.now bytes.now annotations root space)) × (result ≤ 339997) }
{
    let n = nodes.len() as u32;
    let e = edges.len() as u32;
    let x = texts.len() as u32;
    let c = choices.len() as u32;
    let p = put_header(out, n, e, x, annotations, c, root, space);
    let q = put_nodes(out, p, nodes);
    let r = put_numbers(out, q, edges);
    let s = put_numbers(out, r, choices);
    put_texts(out, s, texts, bytes)
}

// How many bytes the texts have together, 64 bits wide.
#[tactic(auto, using(crate::proofs::Laws::lengths_sum))]
pub fn text_total(texts: &[[u32; 3]]) -> usize
    requires { length texts.now < 4294967296 }
    ensures { result ≡ lengths texts.now }
{
    texts.iter().map(|row| row[1] as usize).sum()
}
