// The lines that the program `page` writes, put into a lent slice.
#![tactic(auto)]

ghost use Rattle.std.specs.Prelude.{◌≡◌, ◌+◌, ◌*◌, ◌≤◌, ◌^◌, length};
ghost use Rattle.page_numerals.specs.Digits.{decimal, hexadecimal};
ghost use Rattle.page_lines.specs.Lines.{spaced, refused_line, page_line, page_text};
ghost use Rattle.page_lines.specs.Put.{Put, Front};

// A piece of text from a place on; the answer is the place after it.
fn put_text(out: &mut [u8], at: usize, text: &[u8]) -> usize
    requires { at + length text.now ≤ length out.old }
    ensures { Put out.old at text.now out.new result }
{
    let next = at + text.len();
    out[at..next].copy_from_slice(text);
    next
}

// A number in decimal from a place on.
fn put_number(out: &mut [u8], at: usize, n: u64) -> usize
    requires { at + 20 ≤ length out.old }
    ensures { Put out.old at (decimal n) out.new result × (result ≤ at + 20) }
{
    let count = page_numerals::put_decimal(&mut out[at..], n);
    at + count
}

// A number of two halves in hexadecimal from a place on.
fn put_halves(out: &mut [u8], at: usize, high: u64, low: u64) -> usize
    requires { at + 32 ≤ length out.old }
    ensures { Put out.old at (hexadecimal (high * 2 ^ 64 + low)) out.new result }
{
    page_numerals::put_hexadecimal(&mut out[at..], high, low);
    at + 32
}

// A space and a number in decimal from a place on.
fn put_spaced(out: &mut [u8], at: usize, n: u64) -> usize
    requires { at + 21 ≤ length out.old }
    ensures { Put out.old at (spaced (decimal n)) out.new result × (result ≤ at + 21) }
{
    let next = put_text(out, at, b" ");
    put_number(out, next, n)
}

// A space and a number of two halves in hexadecimal from a place on.
fn put_spaced_halves(out: &mut [u8], at: usize, high: u64, low: u64) -> usize
    requires { at + 33 ≤ length out.old }
    ensures { Put out.old at (spaced (hexadecimal (high * 2 ^ 64 + low))) out.new result × (result ≡ at + 33) }
{
    let next = put_text(out, at, b" ");
    put_halves(out, next, high, low)
}

// `refused N` at the front, by its number, as document 01 has the line; the answer is how many bytes it has.
pub fn refused_line(out: &mut [u8], number: u32) -> usize
    requires { 32 ≤ length out.old }
    ensures { Front (refused_line number) out.new result }
{
    let named = put_text(out, 0, b"refused ");
    let numbered = put_number(out, named, number as u64);
    put_text(out, numbered, b"\n")
}

// The line before a page, at the front.
fn page_line(out: &mut [u8], work: u64, high: u64, low: u64, burden: u64, spans: u64) -> usize
    requires { 101 ≤ length out.old }
    ensures { Put out.old 0 (page_line work (high * 2 ^ 64 + low) burden spans) out.new result × (result ≤ 101) }
{
    let named = put_text(out, 0, b"page");
    let worked = put_spaced(out, named, work);
    let charged = put_spaced_halves(out, worked, high, low);
    let burdened = put_spaced(out, charged, burden);
    let counted = put_spaced(out, burdened, spans);
    put_text(out, counted, b"\n")
}

// A page with the line before it, at the front; the answer is how many bytes they have.
pub fn page_text(
    out: &mut [u8],
    work: u64,
    high: u64,
    low: u64,
    burden: u64,
    spans: u64,
    page: &[u8],
) -> usize
    requires { 102 + length page.now ≤ length out.old }
    ensures { Front (page_text work (high * 2 ^ 64 + low) burden spans page.now) out.new result }
{
    let lined = page_line(out, work, high, low, burden, spans);
    let paged = put_text(out, lined, page);
    put_text(out, paged, b"\n")
}
