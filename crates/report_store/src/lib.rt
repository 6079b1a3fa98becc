// The dense stores of a live report: table rows, bytes and marks, each in the front part of lent memory. A run of items comes in at a place, or goes from it.
#![tactic(auto)]

ghost use Rattle.std.specs.Prelude.{◌≡◌, map, ◌+◌, ◌-◌, ◌≤◌, length, take};
ghost use Rattle.report.specs.Report.{insert_at, remove_at};
ghost use Rattle.report_store.specs.Marks.{words, Narrow, Small};
ghost use Rattle.report_store.specs.Moves.{moved_up};

// What stands from `at` to `used` moves up by n places, the last first. It goes by items, since an archive for C has no memmove from outside.
fn open_gap<T: Copy>(m: &mut [T], used: usize, at: usize, n: usize)
    requires { (at ≤ used) × (used + n ≤ length m.old) }
    ensures { m.new ≡ moved_up m.old used at n }
{
    for i in (at..used).rev() {
        m[i + n] = m[i];
    }
}

// New items stand at `at`, what stood from there to `used` after them.
pub fn insert<T: Copy>(m: &mut [T], used: usize, at: usize, new: &[T])
    requires { (at ≤ used) × (used + length new.now ≤ length m.old) }
    ensures { take (used + length new.now) m.new ≡ insert_at at new.now (take used m.old) }
{
    open_gap(m, used, at, new.len());
    for i in 0..new.len() {
        m[at + i] = new[i];
    }
}

// The n items at `at` are gone, what stood from there to `used` follows in their place.
pub fn remove<T: Copy>(m: &mut [T], used: usize, at: usize, n: usize)
    requires { (at + n ≤ used) × (used ≤ length m.old) }
    ensures { take (used - n) m.new ≡ remove_at at n (take used m.old) }
{
    for i in at + n..used {
        m[i - n] = m[i];
    }
}

fn mark_of(row: [u64; 4]) -> [u32; 4]
    requires { Narrow row }
    ensures { result ≡ words row }
{
    [row[0] as u32, row[1] as u32, row[2] as u32, row[3] as u32]
}

// The first n span rows, of 64 bits, as marks of 32.
pub fn insert_marks(m: &mut [[u32; 4]], used: usize, at: usize, rows: &[[u64; 4]], n: usize)
    requires { (at ≤ used) × (used + n ≤ length m.old) × (n ≤ length rows.now) × Small n rows.now }
    ensures { take (used + n) m.new ≡ insert_at at (map words (take n rows.now)) (take used m.old) }
{
    open_gap(m, used, at, n);
    for i in 0..n {
        m[at + i] = mark_of(rows[i]);
    }
}
