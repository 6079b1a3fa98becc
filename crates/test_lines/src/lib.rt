// Bytes as test programs are given them: a string of bytes to a line, in hexadecimal. `#` begins a remark, and anything else is skipped.
// A string that is longer than the lent slice is cut there. Then lines of a word with such a string, or with numbers, behind it.
#![tactic(auto)]

ghost use Rattle.std.specs.Prelude.{◌≤◌, length};

// How far a line has come: its bytes, the half of the next one, and whether a remark has begun.
#[derive(Clone, Copy)]
pub struct Line {
    pub n: usize,
    pub half: Option<u8>,
    pub remark: bool,
}

pub fn begun() -> Line {
    Line {
        n: 0,
        half: None,
        remark: false,
    }
}

// The digit's value.
fn nibble(c: u8) -> Option<u8> {
    match c {
        b'0'..=b'9' => Some(c - b'0'),
        b'a'..=b'f' => Some(c - b'a' + 10),
        _ => None,
    }
}

// One more byte; how many there are then.
pub fn push(bytes: &mut [u8], n: usize, b: u8) -> usize {
    if n < bytes.len() {
        bytes[n] = b;
        n + 1
    } else {
        bytes.len()
    }
}

// How many bytes the line has in the slice.
pub fn count(line: Line, bytes: &[u8]) -> usize
    ensures { result ≤ length bytes.now }
{
    line.n.min(bytes.len())
}

fn digit(line: Line, d: u8, bytes: &mut [u8]) -> Line {
    match line.half {
        None => Line {
            half: Some(d),
            ..line
        },
        Some(half) => Line {
            n: push(bytes, line.n, half << 4 | d),
            half: None,
            ..line
        },
    }
}

// One more byte of the line.
pub fn step(line: Line, c: u8, bytes: &mut [u8]) -> Line {
    if line.remark {
        line
    } else if c == b'#' {
        Line {
            half: None,
            remark: true,
            ..line
        }
    } else {
        match nibble(c) {
            Some(d) => digit(line, d, bytes),
            None => line,
        }
    }
}

// ---- lines with a word before

// The place behind the next byte `c`, or the end.
pub fn behind(input: &[u8], from: usize, c: u8) -> usize {
    for i in from..input.len() {
        if input[i] == c {
            return i + 1;
        }
    }
    input.len()
}

// The file that a line holds, and where the line ends.
#[derive(Clone, Copy)]
pub struct Read {
    pub line: Line,
    pub next: usize,
}

// Not inlined: in front of a caller's further loops over the same input this one took three times the instructions.
#[inline(never)]
pub fn file_at(input: &[u8], from: usize, file: &mut [u8]) -> Read {
    let mut line = begun();
    for i in behind(input, from, b' ')..input.len() {
        if input[i] == b'\n' {
            return Read { line, next: i + 1 };
        }
        line = step(line, input[i], file);
    }
    Read {
        line,
        next: input.len(),
    }
}

#[derive(Clone, Copy)]
pub struct Number {
    pub value: u64,
    pub next: usize,
}

// One digit more, as long as there is room for it: numbers up to 2^64 - 1.
fn onward(value: u64, c: u8) -> u64 {
    match c {
        b'0'..=b'9' => value
            .checked_mul(10)
            .and_then(|tens| tens.checked_add(u64::from(c - b'0')))
            .unwrap_or(value),
        _ => value,
    }
}

pub fn number_at(input: &[u8], from: usize) -> Number {
    let mut value: u64 = 0;
    for i in from..input.len() {
        if input[i] < b'0' {
            return Number { value, next: i + 1 };
        }
        value = onward(value, input[i]);
    }
    Number {
        value,
        next: input.len(),
    }
}

// A line's numbers, behind its word.
pub fn numbers_at(input: &[u8], from: usize, numbers: &mut [u64]) -> usize {
    let mut at = behind(input, from, b' ');
    for n in numbers.iter_mut() {
        let number = number_at(input, at);
        *n = number.value;
        at = number.next;
    }
    at
}

// The number, or the largest that there is.
pub fn small(n: u64) -> u32 {
    u32::try_from(n).unwrap_or(u32::MAX)
}
