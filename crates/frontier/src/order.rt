// The order of presentation: the kept slots, linked both ways.
ghost use Rattle.std.specs.Prelude.{◌≢◌, ◌∷◌, [], ◌++◌};
ghost use Rattle.avl.specs.Mem.{At};
ghost use Rattle.avl.specs.Holds.{nil};
ghost use Rattle.frontier.specs.Chain.{Within, Without, Chained, Forward, Back};

use avl::{get, store};

const NIL: u64 = 18446744073709551615;

const PREVIOUS: u64 = 8;

const NEXT: u64 = 9;

// The two ends of the order.
#[derive(Clone, Copy)]
pub struct Ends {
    pub head: u64,
    pub tail: u64,
}

// Makes n the slot after p, or the head. Returns the head.
fn set_next(frontier: &mut [u64], p: u64, n: u64, head: u64) -> u64
    requires { p ≢ nil → At frontier.old p }
    ensures { Forward frontier.old frontier.new p n head result }
{
    if p == NIL {
        n
    } else {
        store(frontier, p, NEXT, n);
        head
    }
}

// Makes p the slot before n, or the tail. Returns the tail.
fn set_previous(frontier: &mut [u64], n: u64, p: u64, tail: u64) -> u64
    requires { n ≢ nil → At frontier.old n }
    ensures { Back frontier.old frontier.new n p tail result }
{
    if n == NIL {
        p
    } else {
        store(frontier, n, PREVIOUS, p);
        tail
    }
}

// Takes slot s out of the order.
pub fn unlink_precedence(frontier: &mut [u64], s: u64, ends: Ends) -> Ends
    requires { Within frontier.old s ends.head ends.tail }
    ensures { (p : Within frontier.old s ends.head ends.tail) → Chained frontier.old frontier.new result.head result.tail (p.ys ++ p.zs) }
{
    let p = get(frontier, s, PREVIOUS);
    let n = get(frontier, s, NEXT);
    Ends {
        head: set_next(frontier, p, n, ends.head),
        tail: set_previous(frontier, n, p, ends.tail),
    }
}

// Puts slot s at the end of the order.
pub fn append_precedence(frontier: &mut [u64], s: u64, ends: Ends) -> Ends
    requires { Without frontier.old s ends.head ends.tail }
    ensures { (p : Without frontier.old s ends.head ends.tail) → Chained frontier.old frontier.new result.head result.tail (p.xs ++ s ∷ []) }
{
    store(frontier, s, PREVIOUS, ends.tail);
    store(frontier, s, NEXT, NIL);
    Ends {
        head: set_next(frontier, ends.tail, s, ends.head),
        tail: s,
    }
}
