// Whether bytes are well-formed UTF-8 (RFC 3629).
#![tactic(auto)]

ghost use Rattle.std.specs.Prelude.{◌≡◌};
ghost use Rattle.file_utf8.specs.Told.{Told};
ghost use Rattle.file_utf8.specs.Bytewise;
ghost use Rattle.file_utf8.specs.Utf8.{Utf8};
ghost use Rattle.file_utf8.specs.Follows.{start, Follows};

// How many bytes of a character are still to come, and between which the next of them is.
#[derive(Clone, Copy)]
pub struct Wanted {
    pub left: u32,
    pub low: u8,
    pub high: u8,
}

// Before a character, and what is wanted of any further byte of one.
const START: Wanted = Wanted {
    left: 0,
    low: 128,
    high: 191,
};

// How many bytes follow a first byte: 0 where none may.
#[tactic(auto, unfolding(crate::specs::Bytewise::more))]
fn more(a: u8) -> u32
    ensures { result ≡ Bytewise.more a }
{
    match a {
        194..=223 => 1,
        224..=239 => 2,
        240..=244 => 3,
        _ => 0,
    }
}

// The least byte that may come after a first byte: none that would make the form overlong.
#[tactic(auto, unfolding(crate::specs::Bytewise::low))]
fn low(a: u8) -> u8
    ensures { result ≡ Bytewise.low a }
{
    match a {
        224 => 160,
        240 => 144,
        _ => 128,
    }
}

// And the greatest: none that would make a surrogate, or a number above 10FFFF.
#[tactic(auto, unfolding(crate::specs::Bytewise::high))]
fn high(a: u8) -> u8
    ensures { result ≡ Bytewise.high a }
{
    match a {
        237 => 159,
        244 => 143,
        _ => 191,
    }
}

// A character's first byte, and what is wanted after it.
fn begin(a: u8) -> Option<Wanted>
    ensures { Follows start a result }
{
    if a < 128 {
        return Some(START);
    }
    let left = more(a);
    if left == 0 {
        return None;
    }
    Some(Wanted {
        left,
        low: low(a),
        high: high(a),
    })
}

// What is wanted after the next byte, if it may come.
fn follow(w: Wanted, b: u8) -> Option<Wanted>
    ensures { Follows w b result }
{
    if w.left == 0 {
        return begin(b);
    }
    if b < w.low || w.high < b {
        return None;
    }
    Some(Wanted {
        left: w.left - 1,
        ..START
    })
}

pub fn well_formed(text: &[u8]) -> bool
    ensures { Told (Utf8 text.now) result }
{
    let mut w = START;
    for b in text {
        let Some(next) = follow(w, *b) else {
            return false;
        };
        w = next;
    }
    w.left == 0
}
