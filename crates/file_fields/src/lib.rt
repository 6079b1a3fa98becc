// The fields of a prepared file, read from a position on. A refusal is handed on by every later step, so that the first in file order stays.
#![tactic(auto)]

pub mod header;

ghost use Rattle.std.specs.Prelude.{◌≡◌};
ghost use Rattle.file_fields.specs.Fields.{got, refused, byte_at, word_at, nonzero, field_at, number_at, limited, count_at, formed};

// A number that was read, the position after it, and the refusal so far (0: none).
// Not a Result: `header_at` and what reads on after it promise numbers and a position for what was refused too, so a step has both.
#[derive(Clone, Copy)]
pub struct Step {
    pub value: u32,
    pub at: usize,
    pub fault: u32,
}

// Before the first field.
pub const START: Step = Step {
    value: 0,
    at: 0,
    fault: 0,
};

fn got(value: u32, at: usize) -> Step
    ensures { result ≡ got value at }
{
    Step {
        value,
        at,
        fault: 0,
    }
}

// A refusal at a place.
pub fn refused(fault: u32, at: usize) -> Step
    ensures { result ≡ refused fault at }
{
    Step {
        value: 0,
        at,
        fault,
    }
}

// A byte, or short (2).
#[tactic(auto, using(std::proofs::lemmas::Bool::Decides::nat_tests), unfolding(crate::specs::Fields::byte_at))]
pub fn byte_at(s: &[u8], p: Step) -> Step
    ensures { result ≡ byte_at s.now p }
{
    if p.fault != 0 {
        return p;
    }
    match s.get(p.at) {
        Some(b) => got(u32::from(*b), p.at + 1),
        None => refused(2, p.at),
    }
}

// A number of four bytes, or short (2).
#[tactic(auto, using(std::proofs::lemmas::Bool::Decides::nat_tests), unfolding(crate::specs::Fields::word_at))]
fn word_at(s: &[u8], at: usize) -> Step
    ensures { result ≡ word_at s.now at }
{
    if s.len() < 4 || s.len() - 4 < at {
        return refused(2, at);
    }
    let word = u32::from_le_bytes([s[at], s[at + 1], s[at + 2], s[at + 3]]);
    got(word, at + 4)
}

// A present field is not 0, or form (3).
#[tactic(auto, using(std::proofs::lemmas::Bool::Decides::nat_tests), unfolding(crate::specs::Fields::nonzero))]
fn nonzero(w: Step) -> Step
    ensures { result ≡ nonzero w }
{
    if w.fault == 0 && w.value == 0 {
        return refused(3, w.at);
    }
    w
}

// A field that is absent where it is 0.
#[tactic(auto, using(std::proofs::lemmas::Bool::Decides::nat_tests), unfolding(crate::specs::Fields::field_at))]
pub fn field_at(s: &[u8], on: bool, p: Step) -> Step
    ensures { result ≡ field_at s.now on p }
{
    if p.fault != 0 {
        return p;
    }
    if on {
        nonzero(word_at(s, p.at))
    } else {
        got(0, p.at)
    }
}

// A number that may be 0 where it is present.
#[tactic(auto, using(std::proofs::lemmas::Bool::Decides::nat_tests), unfolding(crate::specs::Fields::number_at))]
pub fn number_at(s: &[u8], on: bool, p: Step) -> Step
    ensures { result ≡ number_at s.now on p }
{
    if p.fault != 0 {
        return p;
    }
    if on { word_at(s, p.at) } else { got(0, p.at) }
}

// A number from low to high, or limit (4). A refusal counts nothing.
#[tactic(auto, using(std::proofs::lemmas::Bool::Decides::nat_tests), unfolding(crate::specs::Fields::limited))]
fn limited(low: u32, high: u32, f: Step) -> Step
    ensures { result ≡ limited low high f }
{
    if f.fault != 0 {
        return refused(f.fault, f.at);
    }
    if f.value < low || high < f.value {
        return refused(4, f.at);
    }
    f
}

#[tactic(auto, unfolding(crate::specs::Fields::count_at))]
pub fn count_at(s: &[u8], on: bool, low: u32, high: u32, p: Step) -> Step
    ensures { result ≡ count_at s.now on low high p }
{
    limited(low, high, field_at(s, on, p))
}

// A map byte of at most high, or form (3).
#[tactic(auto, using(std::proofs::lemmas::Bool::Decides::nat_tests), unfolding(crate::specs::Fields::formed))]
pub fn formed(high: u32, f: Step) -> Step
    ensures { result ≡ formed high f }
{
    if f.fault == 0 && high < f.value {
        return refused(3, f.at);
    }
    f
}
