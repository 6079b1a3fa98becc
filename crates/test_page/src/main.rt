// Inputs of the program `page` from standard input, in hexadecimal, one to a line: for each what the program writes.
// `*` stands for all that the line has so far once more.
#![tactic(auto)]

use std::io;
use std::io::Write;
use streams::read_full;
use test_lines::Line;

fn tell<W: Write>(writer: &mut W, input: &[u8]) -> io::Result<()> {
    let mut text = [0u8; 32870];
    let k = page_text::print_page(input, &mut text);
    writer.write_all(&text[..k])
}

fn again(line: Line, input: &mut [u8]) -> Line {
    if line.remark {
        return line;
    }
    let k = test_lines::count(line, input);
    let more = k.min(input.len() - k);
    input.copy_within(..more, k);
    Line {
        n: k + more,
        half: None,
        ..line
    }
}

// One more byte; at the end of a line its input is told.
fn turn<W: Write>(writer: &mut W, line: Line, c: u8, input: &mut [u8]) -> io::Result<Line> {
    match c {
        b'\n' => {
            let n = test_lines::count(line, input);
            tell(writer, &input[..n])?;
            Ok(test_lines::begun())
        }
        b'*' => Ok(again(line, input)),
        _ => Ok(test_lines::step(line, c, input)),
    }
}

fn all<W: Write>(writer: &mut W, lines: &[u8], input: &mut [u8]) -> io::Result<()> {
    let mut line = test_lines::begun();
    for c in lines {
        line = turn(writer, line, *c, input)?;
    }
    Ok(())
}

fn main(rt: HostRuntime) -> io::Result<()> {
    let mut lines = [0u8; 131072];
    let (n, read) = read_full(&mut rt.stdin(), &mut lines);
    read?;
    let mut input = [0u8; 40000];
    all(&mut rt.stdout(), &lines[..n], &mut input)
}
