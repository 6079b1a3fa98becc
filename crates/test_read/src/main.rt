// Files from standard input, one to a line in hexadecimal: for each the refusal's number, or `0 same` where it is accepted and, written again, has the same bytes.
// `Z` stands for 65,535 bytes 61.
#![tactic(auto)]

use file_form::fill::Counts;
use std::io;
use std::io::Write;
use streams::{print_decimal, read_full};
use test_lines::Line;

fn same(
    file: &[u8],
    n: Counts,
    nodes: &[[u32; 8]],
    edges: &[u32],
    choices: &[u32],
    texts: &[[u32; 3]],
    bytes: &[u8],
) -> bool {
    let mut out = [0u8; 70000];
    let m = prepare::write::file_counts(n);
    match prepare::write::write(m, nodes, edges, choices, texts, bytes, &mut out) {
        Ok(k) => k <= out.len() && file == &out[..k],
        Err(_) => false,
    }
}

fn tell<W: Write>(writer: &mut W, file: &[u8]) -> io::Result<()> {
    let mut nodes = [[0u32; 8]; 4096];
    let mut edges = [0u32; 16384];
    let mut choices = [0u32; 16384];
    let mut texts = [[0u32; 3]; 4096];
    let mut bytes = [0u8; 65536];
    match prepare::read::read(
        file,
        &mut nodes,
        &mut edges,
        &mut choices,
        &mut texts,
        &mut bytes,
    ) {
        Ok(n) => {
            if same(file, n, &nodes, &edges, &choices, &texts, &bytes) {
                writer.write_all(b"0 same\n")
            } else {
                writer.write_all(b"0 differs\n")
            }
        }
        Err(refusal) => {
            print_decimal(writer, u64::from(refusal.number()))?;
            writer.write_all(b"\n")
        }
    }
}

// 65,535 bytes 61.
fn run(line: Line, file: &mut [u8]) -> Line {
    if line.remark {
        return line;
    }
    let mut n = line.n;
    for _ in 0..65535 {
        n = test_lines::push(file, n, b'a');
    }
    Line {
        n,
        half: None,
        ..line
    }
}

// One more byte; at the end of a line its file is told.
fn turn<W: Write>(writer: &mut W, line: Line, c: u8, file: &mut [u8]) -> io::Result<Line> {
    match c {
        b'\n' => {
            let n = test_lines::count(line, file);
            tell(writer, &file[..n])?;
            Ok(test_lines::begun())
        }
        b'Z' => Ok(run(line, file)),
        _ => Ok(test_lines::step(line, c, file)),
    }
}

fn all<W: Write>(writer: &mut W, input: &[u8], file: &mut [u8]) -> io::Result<()> {
    let mut line = test_lines::begun();
    for c in input {
        line = turn(writer, line, *c, file)?;
    }
    Ok(())
}

fn main(rt: HostRuntime) -> io::Result<()> {
    let mut input = [0u8; 65536];
    let (n, read) = read_full(&mut rt.stdin(), &mut input);
    read?;
    let mut file = [0u8; 140000];
    all(&mut rt.stdout(), &input[..n], &mut file)
}
