// Every map byte beside every kind byte, through the public reader and writer: a line for each kind beside which some map may stand, with these maps
// in hexadecimal, and last how many pairs are right and how many are 3. Three times: files that end behind the kind byte (a right pair is 2), whole
// files (a right pair is accepted, or 10, and then starred), and tables of one node (a right pair is not 3).
#![tactic(auto)]

ghost use Rattle.std.specs.Prelude.{◌≤◌};

use file_tables::{NodeId, TextId};
use prepare::read::read;
use prepare::write::{FileCounts, write};
use std::io;
use std::io::Write;
use streams::{print_decimal, print_hex};

// Pairs that are right, pairs that are 3, and whether the kind's line has begun.
#[derive(Clone, Copy)]
struct Tally {
    right: u32,
    wrong: u32,
    begun: bool,
}

// One map more on a kind's line.
fn say<W: Write>(writer: &mut W, t: Tally, k: u8, m: u8, mark: &[u8]) -> io::Result<Tally> {
    if !t.begun {
        print_decimal(writer, u64::from(k))?;
    }
    writer.write_all(b" ")?;
    print_hex(writer, u64::from(m), 2)?;
    writer.write_all(mark)?;
    Ok(Tally {
        right: t.right.wrapping_add(1),
        begun: true,
        ..t
    })
}

// The answer to a pair, where a right one has the usual answer or 10. Any other is in neither sum.
fn tell<W: Write>(
    writer: &mut W,
    t: Tally,
    k: u8,
    m: u8,
    answer: u32,
    usual: u32,
) -> io::Result<Tally> {
    if answer == 3 {
        Ok(Tally {
            wrong: t.wrong.wrapping_add(1),
            ..t
        })
    } else if answer == usual {
        say(writer, t, k, m, b"")
    } else if answer == 10 {
        say(writer, t, k, m, b"*")
    } else {
        Ok(t)
    }
}

fn end_line<W: Write>(writer: &mut W, t: Tally) -> io::Result<Tally> {
    if t.begun {
        writer.write_all(b"\n")?;
    }
    Ok(Tally { begun: false, ..t })
}

fn bit(m: u8, weight: u8) -> u32
    requires { 1 ≤ weight }
    ensures { result ≤ 1 }
{
    (m / weight % 2) as u32
}

// How many fields a map announces.
fn announced(m: u8) -> usize
    ensures { result ≤ 6 }
{
    let n = bit(m, 1) + bit(m, 2) + bit(m, 4) + bit(m, 8) + bit(m, 16) + bit(m, 32);
    n as usize
}

// 4 nodes, the last one with the pair, the others Empty; 4 edges and 4 choice edges, all to node 0; 3 texts, 3 annotations. Each field that the map announces is 2.
fn whole_file(m: u8, k: u8, n: usize) -> [u8; 112]
    requires { n ≤ 6 }
{
    let mut file = [0u8; 112];
    file[0] = 31;
    file[1] = 4;
    file[5] = 4;
    file[9] = 3;
    file[13] = 3;
    file[17] = 4;
    file[27] = m;
    file[28] = k;
    for field in 0..n {
        file[29 + field * 4] = 2;
    }
    let text = 61 + n * 4;
    file[text] = 3;
    file[text + 1] = 1;
    file[text + 5] = 1;
    file[text + 9] = 32;
    file
}

fn read_number(
    file: &[u8],
    nodes: &mut [[u32; 8]; 4096],
    edges: &mut [u32; 16384],
    choices: &mut [u32; 16384],
    texts: &mut [[u32; 3]; 4096],
    bytes: &mut [u8; 65536],
) -> u32 {
    match read(file, nodes, edges, choices, texts, bytes) {
        Ok(_) => 0,
        Err(refusal) => refusal.number(),
    }
}

fn pair_number(
    whole: bool,
    m: u8,
    k: u8,
    nodes: &mut [[u32; 8]; 4096],
    edges: &mut [u32; 16384],
    choices: &mut [u32; 16384],
    texts: &mut [[u32; 3]; 4096],
    bytes: &mut [u8; 65536],
) -> u32 {
    if whole {
        let n = announced(m);
        let file = whole_file(m, k, n);
        read_number(&file[..73 + n * 4], nodes, edges, choices, texts, bytes)
    } else {
        let file = [5u8, 1, 0, 0, 0, 1, 0, 0, 0, m, k];
        read_number(&file, nodes, edges, choices, texts, bytes)
    }
}

fn read_line<W: Write>(
    writer: &mut W,
    t: Tally,
    whole: bool,
    usual: u32,
    k: u8,
) -> io::Result<Tally> {
    let mut nodes = [[0u32; 8]; 4096];
    let mut edges = [0u32; 16384];
    let mut choices = [0u32; 16384];
    let mut texts = [[0u32; 3]; 4096];
    let mut bytes = [0u8; 65536];
    let mut told = t;
    for m in 0..256u32 {
        let map = m as u8;
        let answer = pair_number(
            whole,
            map,
            k,
            &mut nodes,
            &mut edges,
            &mut choices,
            &mut texts,
            &mut bytes,
        );
        told = tell(writer, told, k, map, answer, usual)?;
    }
    end_line(writer, told)
}

// A table of one node, in which what the map announces is 1, and of the space text.
fn write_number(m: u8, k: u8) -> u32 {
    let row = [
        k as u32,
        bit(m, 1),
        bit(m, 2),
        bit(m, 4),
        bit(m, 4),
        bit(m, 8),
        bit(m, 16),
        bit(m, 32),
    ];
    let nodes = [row; 1];
    let texts = [[1u32, 1, 0]; 1];
    let none = [0u32; 1];
    let mut out = [0u8; 64];
    let n = FileCounts {
        nodes: 1,
        edges: 0,
        choices: 0,
        texts: 1,
        annotations: 0,
        root: NodeId(0),
        space: TextId(0),
    };
    match write(n, &nodes, &none, &none, &texts, b" ", &mut out) {
        Ok(_) => 0,
        Err(unwritten) => unwritten.refusal.number(),
    }
}

fn write_line<W: Write>(writer: &mut W, t: Tally, k: u8) -> io::Result<Tally> {
    let mut told = t;
    for map in 0..64 {
        let answer = write_number(map, k);
        told = tell(writer, told, k, map, answer, answer)?;
    }
    end_line(writer, told)
}

// The lines of all kinds, each by `line`, and their sums.
fn lines<W: Write, F: Fn(&mut W, Tally, u8) -> io::Result<Tally>>(
    writer: &mut W,
    line: F,
) -> io::Result<()>
    requires { F.IsAlwaysCallable line }
{
    let mut t = Tally {
        right: 0,
        wrong: 0,
        begun: false,
    };
    for k in 0..256u32 {
        t = line(writer, t, k as u8)?;
    }
    print_decimal(writer, u64::from(t.right))?;
    writer.write_all(b" ")?;
    print_decimal(writer, u64::from(t.wrong))?;
    writer.write_all(b"\n")
}

fn main(rt: HostRuntime) -> io::Result<()> {
    let writer = &mut rt.stdout();
    writer.write_all(b"files cut behind the kind\n")?;
    lines(writer, |writer, t, k| read_line(writer, t, false, 2, k))?;
    writer.write_all(b"whole files\n")?;
    lines(writer, |writer, t, k| read_line(writer, t, true, 0, k))?;
    writer.write_all(b"tables\n")?;
    lines(writer, |writer, t, k| write_line(writer, t, k))
}
