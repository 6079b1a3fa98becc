// Tables that the writer refuses or takes: for each the refusal's number and the needed length, or 0 and the length of the file.
#![tactic(auto)]

use file_tables::{NodeId, TextId};
use prepare::write::{FileCounts, Unwritten, write};
use std::io;
use std::io::Write;
use streams::print_decimal;

const EMPTY: [u32; 8] = [0, 0, 0, 0, 0, 0, 0, 0];

const SPACE: [u32; 3] = [1, 1, 0];

fn say<W: Write>(writer: &mut W, outcome: Result<usize, Unwritten>) -> io::Result<()> {
    match outcome {
        Ok(k) => {
            writer.write_all(b"0 ")?;
            print_decimal(writer, k as u64)?;
            writer.write_all(b"\n")
        }
        Err(Unwritten { refusal, needed }) => {
            print_decimal(writer, u64::from(refusal.number()))?;
            writer.write_all(b" ")?;
            print_decimal(writer, needed as u64)?;
            writer.write_all(b"\n")
        }
    }
}

fn counts(nodes: u32, choices: u32, texts: u32, root: u32) -> FileCounts {
    FileCounts {
        nodes,
        edges: 0,
        choices,
        texts,
        annotations: 0,
        root: NodeId(root),
        space: TextId(0),
    }
}

// One node, one text of at most one byte, no edges, one choice edge where choices is 1.
#[derive(Clone, Copy)]
struct Case {
    counts: FileCounts,
    node: [u32; 8],
    text: [u32; 3],
    byte: u8,
}

fn tables(counts: FileCounts, node: [u32; 8], text: [u32; 3], byte: u8) -> Case {
    Case {
        counts,
        node,
        text,
        byte,
    }
}

// A node with counts and text that are right.
fn node(node: [u32; 8]) -> Case {
    tables(counts(1, 0, 1, 0), node, SPACE, 32)
}

fn say_all<W: Write>(writer: &mut W, cases: &[Case]) -> io::Result<()> {
    let numbers = [0u32; 1];
    for case in cases {
        let mut out = [0u8; 64];
        say(
            writer,
            write(
                case.counts,
                &[case.node],
                &numbers,
                &numbers,
                &[case.text],
                &[case.byte],
                &mut out,
            ),
        )?;
    }
    Ok(())
}

// Rows and texts that are right or have a word that no field can carry.
fn forms<W: Write>(writer: &mut W) -> io::Result<()> {
    let cases = [
        node(EMPTY),
        node([12, 0, 0, 0, 0, 0, 0, 0]),
        node([0, 1, 0, 0, 0, 0, 0, 0]),
        node([1, 0, 1, 0, 0, 0, 0, 0]),
        node([0, 0, 0, 2, 0, 0, 0, 0]),
        node([256, 0, 0, 0, 0, 0, 0, 0]),
        node([0, 0, 0, 0, 1, 0, 0, 0]),
        node([9, 0, 0, 0, 0, 1, 0, 0]),
        node([9, 0, 0, 0, 0, 0, 0, 1]),
        tables(counts(1, 0, 1, 0), EMPTY, [1, 1, 1], 32),
        node([0, 0, 0, 1, 0, 0, 0, 0]),
    ];
    say_all(writer, &cases)
}

// The order of the refusals: 1, the header's 4, 3, then 6 to 10.
fn orders<W: Write>(writer: &mut W) -> io::Result<()> {
    let wrong = [12, 0, 0, 0, 0, 0, 0, 0];
    let cases = [
        tables(counts(2, 0, 1, 0), wrong, SPACE, 32),
        tables(counts(1, 0, 1, 0), wrong, [1, 2, 0], 32),
        tables(counts(1, 0, 0, 0), wrong, SPACE, 32),
        tables(counts(0, 0, 1, 0), EMPTY, SPACE, 32),
        tables(counts(1, 0, 1, 1), EMPTY, SPACE, 10),
    ];
    say_all(writer, &cases)
}

fn rules<W: Write>(writer: &mut W) -> io::Result<()> {
    let cases = [
        tables(counts(1, 0, 1, 0), EMPTY, SPACE, 10),
        tables(counts(1, 0, 1, 0), EMPTY, [2, 1, 0], 32),
        node([5, 0, 0, 0, 0, 0, 0, 0]),
    ];
    say_all(writer, &cases)
}

// A choice list that is not the two of its Choice, and one that is.
fn lists<W: Write>(writer: &mut W) -> io::Result<()> {
    let choice = [9u32, 1, 2, 0, 0, 0, 2, 0];
    let nodes = [choice, EMPTY, EMPTY];
    let texts = [SPACE];
    let bytes = [32u8; 1];
    let numbers = [0u32; 1];
    let wrong = [1u32, 1];
    let right = [1u32, 2];
    let mut out = [0u8; 64];
    say(
        writer,
        write(
            counts(3, 2, 1, 0),
            &nodes,
            &numbers,
            &wrong,
            &texts,
            &bytes,
            &mut out,
        ),
    )?;
    say(
        writer,
        write(
            counts(3, 2, 1, 0),
            &nodes,
            &numbers,
            &right,
            &texts,
            &bytes,
            &mut out,
        ),
    )
}

// 4,097 nodes are 4 where they are lent, and 1 where they are not.
fn limits<W: Write>(writer: &mut W) -> io::Result<()> {
    let nodes = [EMPTY; 4097];
    let texts = [SPACE];
    let bytes = [32u8; 1];
    let numbers = [0u32; 1];
    let mut out = [0u8; 64];
    say(
        writer,
        write(
            counts(4097, 0, 1, 0),
            &nodes,
            &numbers,
            &numbers,
            &texts,
            &bytes,
            &mut out,
        ),
    )?;
    say(
        writer,
        write(
            counts(4097, 0, 1, 0),
            &nodes[..4096],
            &numbers,
            &numbers,
            &texts,
            &bytes,
            &mut out,
        ),
    )
}

// A text total of 65,537 is 4, after a node's 3; where the bytes are not lent it is 1.
fn totals<W: Write>(writer: &mut W) -> io::Result<()> {
    let good = [EMPTY];
    let bad = [[12u32, 0, 0, 0, 0, 0, 0, 0]; 1];
    let texts = [[1u32, 65537, 0]; 1];
    let bytes = [97u8; 65537];
    let numbers = [0u32; 1];
    let mut out = [0u8; 64];
    say(
        writer,
        write(
            counts(1, 0, 1, 0),
            &good,
            &numbers,
            &numbers,
            &texts,
            &bytes,
            &mut out,
        ),
    )?;
    say(
        writer,
        write(
            counts(1, 0, 1, 0),
            &bad,
            &numbers,
            &numbers,
            &texts,
            &bytes,
            &mut out,
        ),
    )?;
    say(
        writer,
        write(
            counts(1, 0, 1, 0),
            &good,
            &numbers,
            &numbers,
            &texts,
            &bytes[..65536],
            &mut out,
        ),
    )
}

// The first byte and the one past the file.
fn ends<W: Write>(writer: &mut W, out: &[u8; 22]) -> io::Result<()> {
    print_decimal(writer, u64::from(out[0]))?;
    writer.write_all(b" ")?;
    print_decimal(writer, u64::from(out[21]))?;
    writer.write_all(b"\n")
}

// Room for all but one byte: nothing is altered.
fn short<W: Write>(writer: &mut W) -> io::Result<()> {
    let nodes = [EMPTY];
    let texts = [SPACE];
    let bytes = [32u8; 1];
    let numbers = [0u32; 1];
    let mut out = [7u8; 22];
    say(
        writer,
        write(
            counts(1, 0, 1, 0),
            &nodes,
            &numbers,
            &numbers,
            &texts,
            &bytes,
            &mut out[..20],
        ),
    )?;
    ends(writer, &out)
}

// Room for all and one byte more, which stays. Where the space text is no text, all stay.
fn enough<W: Write>(writer: &mut W, space: u8) -> io::Result<()> {
    let nodes = [EMPTY];
    let texts = [SPACE];
    let bytes = [space; 1];
    let numbers = [0u32; 1];
    let mut out = [7u8; 22];
    say(
        writer,
        write(
            counts(1, 0, 1, 0),
            &nodes,
            &numbers,
            &numbers,
            &texts,
            &bytes,
            &mut out,
        ),
    )?;
    ends(writer, &out)
}

fn main(rt: HostRuntime) -> io::Result<()> {
    let writer = &mut rt.stdout();
    forms(writer)?;
    orders(writer)?;
    rules(writer)?;
    lists(writer)?;
    limits(writer)?;
    totals(writer)?;
    short(writer)?;
    enough(writer, 32)?;
    enough(writer, 128)?;
    enough(writer, 255)
}
