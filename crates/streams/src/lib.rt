// What the programs share: input read whole, and numbers printed.
#![tactic(auto)]

ghost use Rattle.std.specs.Prelude.{◌<◌, ◌≤◌, length, take, decimal, OnOk};
ghost use Rattle.std.specs.Io.KnownBytes.{Appends, Consumes, IsAtEnd};
ghost use Rattle.streams.specs.Hex.{hex};

use std::io;
use std::io::{Read, Write};

// Reads until `buf` is full, the input ends or a read fails. How many bytes of the input stand at the start of `buf` then, and whether a read failed.
pub fn read_full<R: Read>(reader: &mut R, buf: &mut [u8]) -> (usize, io::Result<()>)
    ensures in_bounds { result.0 ≤ length buf.new }
    ensures bytes { Consumes (R.remaining reader.old) (R.remaining reader.new) (take result.0 buf.new) }
    ensures end { OnOk result.1 (result.0 < length buf.new → IsAtEnd (R.remaining reader.new)) }
{
    let mut done = 0;
    // A while loop: each read says how far it came.
    while done < buf.len() {
        match reader.read(&mut buf[done..]) {
            Ok(0) => break,
            Ok(n) => done += n,
            Err(e) => return (done, Err(e)),
        }
    }
    (done, Ok(()))
}

// `n` in decimal digits.
pub fn print_decimal<W: Write>(writer: &mut W, n: u64) -> io::Result<()>
    ensures { OnOk result (Appends (W.contents writer.old) (W.contents writer.new) (decimal n)) }
{
    write!(writer, "{n}")
}

// `n` in hexadecimal digits, in lower case, with zeros in front up to so many digits.
pub fn print_hex<W: Write>(writer: &mut W, n: u64, digits: usize) -> io::Result<()>
    ensures { OnOk result (Appends (W.contents writer.old) (W.contents writer.new) (hex digits n)) }
{
    write!(writer, "{n:0digits$x}")
}
