// A live report's whole page and its spans, from the rows' own: byte 10 between neighbours, positions and parents moved.
#![tactic(auto)]

ghost use Rattle.std.specs.Prelude.{◌≡◌, map, ◌+◌, ◌≤◌, ◌<◌, ◌^◌, length, take, drop};
ghost use Rattle.std.proofs.lemmas.List.Edits.{sets};
ghost use Rattle.report_page.specs.Moves.{lead, moved_parent, moved_words};
ghost use Rattle.report_page.specs.Delivered.{Deliverable, Delivered};

// A parent's word: 0, no parent, stays; a number moves by the n spans before the row.
fn moved_parent(word: u32, n: usize) -> u64
    requires { n < 2 ^ 32 }
    ensures { result ≡ moved_parent n word }
{
    if word == 0 {
        0
    } else {
        u64::from(word) + n as u64
    }
}

// A span of a row whose page starts at a position, with n spans before it.
fn moved(row: [u32; 4], at: usize, n: usize) -> [u64; 4]
    requires { (at < 2 ^ 32) × (n < 2 ^ 32) }
    ensures { result ≡ moved_words at n row }
{
    [
        u64::from(row[0]),
        u64::from(row[1]) + at as u64,
        u64::from(row[2]) + at as u64,
        moved_parent(row[3], n),
    ]
}

// The newline before row k, but for the first; the answer is where its page starts.
fn put_lead(k: usize, output: &mut [u8], at: usize) -> usize
    requires { at + length (lead k) ≤ length output.old }
    ensures { (result ≡ at + length (lead k)) × (output.new ≡ sets output.old at (lead k)) }
{
    if k == 0 {
        return at;
    }
    output[at] = 10;
    at + 1
}

// A row's page. It goes by bytes, since an archive for C has no memmove from outside.
fn put_page(pages: &[u8], from: usize, len: usize, output: &mut [u8], at: usize)
    requires { (from + len ≤ length pages.now) × (at + len ≤ length output.old) }
    ensures { output.new ≡ sets output.old at (take len (drop from pages.now)) }
{
    for i in 0..len {
        output[at + i] = pages[from + i];
    }
}

// A row's spans, moved. They stand in spans where they stand in marks.
fn put_marks(marks: &[[u32; 4]], n: usize, count: usize, spans: &mut [[u64; 4]], at: usize)
    requires { (n + count ≤ length marks.now) × (n + count ≤ length spans.old) × (at < 2 ^ 32) × (n + count < 2 ^ 32) }
    ensures { spans.new ≡ sets spans.old n (map (moved_words at n) (take count (drop n marks.now))) }
{
    for i in n..n + count {
        spans[i] = moved(marks[i], at, n);
    }
}

// The whole page and its spans, from the rows' own.
pub fn deliver(
    rows: usize,
    table: &[[u64; 8]],
    pages: &[u8],
    marks: &[[u32; 4]],
    output: &mut [u8],
    spans: &mut [[u64; 4]],
)
    requires { Deliverable rows table.now pages.now marks.now output.old spans.old }
    ensures { Delivered rows table.now pages.now marks.now output.old output.new spans.old spans.new }
{
    let mut from = 0;
    let mut at = 0;
    let mut n = 0;
    for (k, row) in table[..rows].iter().enumerate() {
        let len = row[1] as usize;
        let count = row[2] as usize;
        let start = put_lead(k, output, at);
        put_page(pages, from, len, output, start);
        put_marks(marks, n, count, spans, start);
        from += len;
        at = start + len;
        n += count;
    }
}
