// Presents pseudo-random candidates to a frontier of six slots and to a plain list, and compares number pruned, refusals and survivors after each.
#![tactic(auto)]

ghost use Rattle.std.specs.Prelude.{◌≤◌, IfSome, length};
ghost use Rattle.frontier.specs.Kept.{Frontier};
ghost use Rattle.test_frontier.specs.Runs.{Ready, Kept, Renewed};

use cost::ConsumerCost;
use frontier::{Builder, Full, Presented, ScratchCandidate};
use std::io;
use std::io::Write;
use streams::print_decimal;

const SIZE: u64 = 6;

// The next of the pseudo-random numbers (xorshift).
fn scramble(x: u64) -> u64 {
    let a = x ^ (x << 13);
    let b = a ^ (a >> 7);
    b ^ (b << 17)
}

// A candidate of few columns and few costs, so that many are equal.
fn drawn(seed: u64, n: u64) -> ScratchCandidate {
    ScratchCandidate {
        cost: ConsumerCost {
            overflow_high: seed % 2,
            overflow_low: seed / 2 % 3,
            burden: seed / 16 % 5,
        },
        last: (seed / 256 % 24) as u32,
        precedence: n,
        kind: 1,
        first: seed,
        second: n,
    }
}

// ---- the plain list

// A candidate in the list: of its plan, one word.
#[derive(Clone, Copy, PartialEq, Eq)]
struct Row {
    column: u64,
    price: u64,
    precedence: u64,
    first: u64,
}

// The small costs above in one number.
fn price(c: ConsumerCost) -> u64 {
    c.overflow_high % 8 * 64 + c.overflow_low % 8 * 8 + c.burden % 8
}

fn row_of(c: ScratchCandidate) -> Row {
    Row {
        column: u64::from(c.last),
        price: price(c.cost),
        precedence: c.precedence,
        first: c.first,
    }
}

fn covers(row: Row, other: Row) -> bool {
    (row.column == other.column && row.price <= other.price)
        || (row.column < other.column && row.price < other.price)
}

// Moves the rows that the new one leaves to the front. How many there are then.
fn sieve(rows: &mut [Row], count: usize, new: Row) -> usize
    requires { count ≤ length rows.old }
    ensures { result ≤ count }
{
    let mut j: usize = 0;
    for i in 0..count {
        let row = rows[i];
        if !covers(new, row) {
            rows[j] = row;
            j += 1;
        }
    }
    j
}

// How many rows there are with the new one, if there is a place for it.
fn list_present(rows: &mut [Row], count: usize, new: Row) -> Option<usize>
    requires { (count ≤ 6) × (6 ≤ length rows.old) }
    ensures { IfSome result (λ n. n ≤ 6) }
{
    if rows[..count].iter().any(|row| covers(*row, new)) {
        return Some(count);
    }
    let j = sieve(rows, count, new);
    if j == 6 {
        return None;
    }
    rows[j] = new;
    Some(j + 1)
}

// Of the candidates before and the new one, those that are not left were pruned.
fn counted(pruned: u64, count: usize, before: usize) -> bool {
    pruned.wrapping_add(count as u64) == (before as u64).wrapping_add(1)
}

// ---- the survivors against the list

fn same(frontier: &[u64], b: Builder, rows: &[Row]) -> bool
    requires { Frontier frontier.now 6 b }
{
    let mut cursor = frontier::first(b);
    for row in rows {
        let Some(s) = cursor else {
            return false;
        };
        if row_of(frontier::candidate(frontier, s)) != *row {
            return false;
        }
        cursor = frontier::following(frontier, s);
    }
    cursor.is_none()
}

// ---- the run

#[derive(Clone, Copy)]
struct State {
    builder: Builder,
    count: usize,
    pruned: u64,
    refused: u64,
    wrong: u64,
}

fn told(wrong: u64, right: bool) -> u64 {
    wrong.wrapping_add(u64::from(!right))
}

fn refused(s: State, full: Full, listed: Option<usize>) -> State
    requires { s.count ≤ 6 }
    ensures { Kept s result }
{
    State {
        refused: s.refused.wrapping_add(1),
        wrong: told(s.wrong, listed.is_none() && full.needed == 7),
        ..s
    }
}

fn done(
    frontier: &[u64],
    rows: &[Row],
    s: State,
    presented: Presented,
    listed: Option<usize>,
) -> State
    requires { (Frontier frontier.now 6 presented.builder) × (6 ≤ length rows.now) × IfSome listed (λ n. n ≤ 6) }
    ensures { Ready frontier.now result }
{
    let count = listed.unwrap_or(0);
    let right = listed.is_some()
        && same(frontier, presented.builder, &rows[..count])
        && counted(presented.pruned, count, s.count);
    State {
        builder: presented.builder,
        count,
        pruned: s.pruned.wrapping_add(presented.pruned),
        wrong: told(s.wrong, right),
        ..s
    }
}

fn turn(frontier: &mut [u64], rows: &mut [Row], s: State, seed: u64, n: u64) -> State
    requires { (Ready frontier.old s) × (6 ≤ length rows.old) }
    ensures { Ready frontier.new result }
{
    let c = drawn(seed, n);
    let answer = frontier::present(frontier, SIZE, s.builder, c);
    let listed = list_present(rows, s.count, row_of(c));
    match answer {
        Ok(presented) => done(frontier, rows, s, presented, listed),
        Err(full) => refused(s, full, listed),
    }
}

// A new frontier every fifty turns, in the memory that holds the old one.
fn renewed(s: State, n: u64) -> State
    ensures { Renewed s result }
{
    if n % 50 != 0 {
        s
    } else {
        State {
            builder: frontier::begin_builder(),
            count: 0,
            ..s
        }
    }
}

fn run(frontier: &mut [u64], rows: &mut [Row]) -> State
    requires { (84 ≤ length frontier.old) × (6 ≤ length rows.old) }
{
    let mut s = State {
        builder: frontier::begin_builder(),
        count: 0,
        pruned: 0,
        refused: 0,
        wrong: 0,
    };
    let mut seed: u64 = 88172645463325252;
    for n in 0..4000 {
        seed = scramble(seed);
        s = turn(frontier, rows, renewed(s, n), seed, n);
    }
    s
}

fn main(rt: HostRuntime) -> io::Result<()> {
    let mut frontier = [7u64; 84];
    let row = Row {
        column: 0,
        price: 0,
        precedence: 0,
        first: 0,
    };
    let mut rows = [row; 6];
    let s = run(&mut frontier, &mut rows);
    let writer = &mut rt.stdout();
    writer.write_all(b"presented 4000, pruned ")?;
    print_decimal(writer, s.pruned)?;
    writer.write_all(b", refused ")?;
    print_decimal(writer, s.refused)?;
    writer.write_all(b", unlike the list ")?;
    print_decimal(writer, s.wrong)?;
    writer.write_all(b"\n")
}
