// The memo of the solver: for a key (node, column, indent) the range of kept candidates that was found for it.
// It stands in lent memory that may hold anything at the start of a call: a dense list of entries, and an index whose slot is
// believed only where it names one of this call's entries and that entry names the slot back.
#![tactic(auto)]

ghost use Rattle.std.specs.Prelude.{◌≡◌, ◌+◌, ◌*◌, ◌%◌, ◌^◌, ◌<◌, ◌≤◌, length};
ghost use Rattle.memo.specs.Hash.{mix_of, hash_of};
ghost use Rattle.memo.specs.Sizes.{SlotsFor};
ghost use Rattle.memo.specs.Entries.{lookup, listed, row_of};
ghost use Rattle.memo.specs.Index.{Power, Sound, Named, Told, Spotted, Insertion};

#[derive(Clone, Copy)]
pub struct MemoKey {
    pub node: u32,
    pub column: u32,
    pub indent: u32,
}

// A run of kept candidates.
#[derive(Clone, Copy)]
pub struct CandidateRange {
    pub start: u64,
    pub len: u64,
}

// The size is reached, and one of `needed` would do.
#[derive(Clone, Copy, Debug, PartialEq, Eq)]
pub struct Full {
    pub needed: u64,
}

// Where a search for a key ends: at a slot that is not live, at the key's entry, or nowhere.
#[derive(Clone, Copy)]
pub enum Spot {
    Free(usize),
    Taken(usize),
    Nowhere,
}

// a * b modulo 2^64.
pub fn wrapping_mul(a: u64, b: u64) -> u64
    ensures { result ≡ a * b % 2 ^ 64 }
{
    a.wrapping_mul(b)
}

pub fn mix(value: u64) -> u64
    ensures { result ≡ mix_of value }
{
    let a = value.wrapping_add(0x9e3779b97f4a7c15);
    let b = wrapping_mul(a ^ (a >> 30), 0xbf58476d1ce4e5b9);
    let c = wrapping_mul(b ^ (b >> 27), 0x94d049bb133111eb);
    c ^ (c >> 31)
}

pub fn memo_hash(key: MemoKey) -> u64
    ensures { result ≡ hash_of key }
{
    mix(((key.node as u64) << 32 | (key.column as u64)) ^ mix(key.indent as u64))
}

// How many slots a memo of so many entries takes.
pub fn memo_slots_for(entries: u32) -> usize
    ensures { SlotsFor entries result }
{
    let wanted = entries as usize;
    if wanted == 0 {
        return 0;
    }
    let mut slots: usize = 8;
    // A while loop: the slots double, so there is no range to go over.
    while slots * 7 / 10 < wanted {
        slots *= 2;
    }
    slots
}

// The entry that slot `s` names, if the slot is live.
fn named(index: &[u64], entries: &[[u64; 6]], count: usize, s: usize) -> Option<usize>
    requires { (s < length index.now) × (count ≤ length entries.now) }
    ensures { Named index.now entries.now count s result }
{
    let k = index[s] as usize;
    if k < count && entries[k][5] == s as u64 {
        Some(k)
    } else {
        None
    }
}

// Whether entry `k` has the key.
fn same_key(entries: &[[u64; 6]], k: usize, key: MemoKey) -> bool
    requires { k < length entries.now }
    ensures { Told entries.now k key result }
{
    entries[k][0] == key.node as u64
        && entries[k][1] == key.column as u64
        && entries[k][2] == key.indent as u64
}

// The search, over all slots from the key's own on, which the mask of a power of two gives.
fn find(index: &[u64], entries: &[[u64; 6]], count: usize, key: MemoKey) -> Spot
    requires { (count ≤ length entries.now) × Power (length index.now) }
    ensures { Spotted index.now entries.now count key result }
{
    let n = index.len();
    let own = memo_hash(key) as usize & (n - 1);
    for t in 0..n {
        let s = (own + t) & (n - 1);
        let Some(k) = named(index, entries, count, s) else {
            return Spot::Free(s);
        };
        if same_key(entries, k, key) {
            return Spot::Taken(k);
        }
    }
    Spot::Nowhere
}

// The row of an entry.
fn row(key: MemoKey, range: CandidateRange, slot: u64) -> [u64; 6]
    ensures { result ≡ row_of (record { key = key; range = range }) slot }
{
    [
        key.node as u64,
        key.column as u64,
        key.indent as u64,
        range.start,
        range.len,
        slot,
    ]
}

// The range that was entered for the key. While there is no entry, and so at size 0, no memory is touched.
pub fn memo_get(
    index: &[u64],
    entries: &[[u64; 6]],
    count: usize,
    key: MemoKey,
) -> Option<CandidateRange>
    requires { Sound index.now entries.now count }
    ensures { result ≡ lookup (listed entries.now count) key }
{
    if count == 0 {
        return None;
    }
    match find(index, entries, count, key) {
        Spot::Taken(k) => Some(CandidateRange {
            start: entries[k][3],
            len: entries[k][4],
        }),
        Spot::Free(_) | Spot::Nowhere => None,
    }
}

// The range under the key, in the place of the key's entry if there is one: how many entries there are now, at most `size`.
pub fn memo_insert(
    index: &mut [u64],
    entries: &mut [[u64; 6]],
    count: usize,
    size: usize,
    key: MemoKey,
    range: CandidateRange,
) -> Result<usize, Full>
    requires { (Sound index.old entries.old count) × ((size ≤ length entries.old) × (size ≤ length index.old)) }
    ensures { Insertion index.old entries.old count size index.new entries.new (record { key = key; range = range }) result }
{
    if size <= count {
        return Err(Full {
            needed: (count + 1) as u64,
        });
    }
    match find(index, entries, count, key) {
        Spot::Free(s) => {
            entries[count] = row(key, range, s as u64);
            index[s] = count as u64;
            Ok(count + 1)
        }
        Spot::Taken(k) => {
            entries[k] = row(key, range, entries[k][5]);
            Ok(count)
        }
        Spot::Nowhere => Ok(count),
    }
}
