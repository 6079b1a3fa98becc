// The text records: display width, byte length, and the bytes, which are copied one text after the other.
ghost use Rattle.std.specs.Prelude.{◌≡◌, ◌++◌, ◌+◌, ◌≤◌, length, take, drop};
ghost use Rattle.std.proofs.lemmas.List.Edits.{sets};
ghost use Rattle.file_form.specs.Texts.{totalled, span_at, text_head, after_texts, read_text_rows, text_bytes};

use file_fields::{Step, byte_at, field_at, formed, refused};

// A text's display width, and the step after its length.
#[derive(Clone, Copy)]
pub struct Head {
    pub width: u32,
    pub len: Step,
}

// The lengths so far, and the step after the last text.
#[derive(Clone, Copy)]
pub struct Run {
    pub total: usize,
    pub next: Step,
}

// The sum is 64 bits wide, so that no length makes it wrap.
#[tactic(auto, using(std::proofs::lemmas::Bool::Decides::nat_tests), unfolding(crate::specs::Texts::totalled))]
fn totalled(total: usize, f: Step) -> Step
    requires { total ≤ 65536 }
    ensures { result ≡ totalled total f }
{
    if f.fault != 0 {
        return refused(f.fault, f.at);
    }
    let sum = total + f.value as usize;
    if 65536 < sum {
        return refused(4, f.at);
    }
    f
}

fn text_head(s: &[u8], total: usize, p: Step) -> Head
    requires { total ≤ 65536 }
    ensures { result ≡ text_head s.now total p }
{
    let map = formed(3, byte_at(s, p));
    let m = map.value;
    let width = field_at(s, m / 1 % 2 == 1, map);
    let len = totalled(total, field_at(s, m / 2 % 2 == 1, width));
    Head {
        width: width.value,
        len,
    }
}

// The bytes of `src` at the front of `dst`, which starts at the current position.
// Byte by byte: `copy_from_slice` would call memmove, which the library for C doesn't ask for.
pub fn copy(src: &[u8], dst: &mut [u8])
    requires { length src.now ≤ length dst.old }
    ensures { dst.new ≡ src.now ++ drop (length src.now) dst.old }
{
    for i in 0..src.len() {
        dst[i] = src[i];
    }
}

fn text_bytes(s: &[u8], l: Step, total: usize, bytes: &mut [u8]) -> Step
    requires { total + l.value ≤ length bytes.old }
    ensures { (result ≡ span_at s.now l) × (bytes.new ≡ sets bytes.old total (take (span_at s.now l).value (drop l.at s.now))) }
{
    if l.fault != 0 {
        return refused(l.fault, l.at);
    }
    let from = l.at;
    let n = l.value as usize;
    if s.len() < from || s.len() - from < n {
        return refused(2, from);
    }
    let end = from + n;
    copy(&s[from..end], &mut bytes[total..]);
    Step {
        value: l.value,
        at: end,
        fault: 0,
    }
}

pub fn texts_at(s: &[u8], p: Step, count: usize, t: &mut [[u32; 3]], bytes: &mut [u8]) -> Run
    requires { (count ≤ length t.old) × (65536 ≤ length bytes.old) }
    ensures { (result ≡ after_texts s.now p count) × ((take count t.new ≡ read_text_rows s.now p count) × (take result.total bytes.new ≡ text_bytes s.now p count)) }
{
    let mut q = p;
    let mut total = 0;
    for row in &mut t[..count] {
        let h = text_head(s, total, q);
        q = text_bytes(s, h.len, total, bytes);
        *row = [h.width, q.value, total as u32];
        total += q.value as usize;
    }
    Run { total, next: q }
}
