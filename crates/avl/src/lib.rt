// The frontier's tree: an AVL tree of columns in one lent slice of words, fourteen words a slot. It reads the column of a slot and owns its
// left link, its right link and its height; the other words are the caller's.
#![tactic(auto)]

ghost use Rattle.std.specs.Prelude.{◌≡◌, suc, max, ◌+◌, ◌*◌, ◌<◌};
ghost use Rattle.avl.specs.Mem.{word, put, At};
ghost use Rattle.avl.specs.Tree.{ht, rot_l, rot_r, tilt_l, tilt_r, bal, ins, join, Seen};
ghost use Rattle.avl.specs.Tree.Tree.{node};
ghost use Rattle.avl.specs.Links.{link_of};
ghost use Rattle.avl.specs.Holds.{top, Held, Spot, SpotL, SpotR, Made, Laid, Room, GraftL, GraftR, Full, Cut, Pair, Has, Gone, cleared, Whole, nil};

const NIL: u64 = 18446744073709551615;

const KEY: u64 = 3;

const LEFT: u64 = 11;

const RIGHT: u64 = 12;

const HEIGHT: u64 = 13;

// Field k of slot s.
#[tactic(auto, unfolding(crate::specs::Mem::word))]
pub fn get(frontier: &[u64], s: u64, k: u64) -> u64
    requires { (At frontier.now s) × (k < 14) }
    ensures { result ≡ word frontier.now s k }
{
    frontier[(s * 14 + k) as usize]
}

// Puts x into field k of slot s.
#[tactic(auto, unfolding(crate::specs::Mem::put))]
pub fn store(frontier: &mut [u64], s: u64, k: u64, x: u64)
    requires { (At frontier.old s) × (k < 14) }
    ensures { frontier.new ≡ put frontier.old s k x }
{
    frontier[(s * 14 + k) as usize] = x;
}

pub fn larger(a: u64, b: u64) -> u64
    ensures { result ≡ max a b }
{
    a.max(b)
}

// The height of the tree at the link p.
fn height(frontier: &[u64], p: u64) -> u64
    requires { Held frontier.now p }
    ensures { (h : Held frontier.now p) → result ≡ ht h.tree }
{
    if p == NIL {
        0
    } else {
        get(frontier, p, HEIGHT)
    }
}

// The height of the tree at the left link of slot s, and at the right one. What is done on the left and on the right stays two functions, here and below:
// each one's contract names its side's trees (p.l, rot_l), and one function for both would have to choose between the two contracts.
fn high_left(frontier: &[u64], s: u64) -> u64
    requires { Spot frontier.now s }
    ensures { (p : Spot frontier.now s) → (result ≡ ht p.l) × (result < top) }
{
    height(frontier, get(frontier, s, LEFT))
}

fn high_right(frontier: &[u64], s: u64) -> u64
    requires { Spot frontier.now s }
    ensures { (p : Spot frontier.now s) → (result ≡ ht p.r) × (result < top) }
{
    height(frontier, get(frontier, s, RIGHT))
}

// Gives slot s the height that its links say.
fn update_height(frontier: &mut [u64], s: u64)
    requires { Spot frontier.old s }
    ensures { (p : Spot frontier.old s) → Made frontier.old frontier.new s (node p.l s p.k p.r) p.k (suc p.k) }
{
    let h = larger(high_left(frontier, s), high_right(frontier, s)) + 1;
    store(frontier, s, HEIGHT, h);
}

// Turns slot y to the right: its left child takes its place.
fn rotate_right(frontier: &mut [u64], y: u64) -> u64
    requires { SpotL frontier.old y }
    ensures { (p : SpotL frontier.old y) → Made frontier.old frontier.new result (rot_r (node p.l y p.k p.r)) p.lo p.hi }
{
    let x = get(frontier, y, LEFT);
    let b = get(frontier, x, RIGHT);
    store(frontier, y, LEFT, b);
    update_height(frontier, y);
    store(frontier, x, RIGHT, y);
    update_height(frontier, x);
    x
}

// Turns slot y to the left: its right child takes its place.
fn rotate_left(frontier: &mut [u64], y: u64) -> u64
    requires { SpotR frontier.old y }
    ensures { (p : SpotR frontier.old y) → Made frontier.old frontier.new result (rot_l (node p.l y p.k p.r)) p.lo p.hi }
{
    let x = get(frontier, y, RIGHT);
    let b = get(frontier, x, LEFT);
    store(frontier, y, RIGHT, b);
    update_height(frontier, y);
    store(frontier, x, LEFT, y);
    update_height(frontier, x);
    x
}

// Turns the left child of slot s to the left if its right tree is the higher.
fn tilt_left(frontier: &mut [u64], s: u64)
    requires { SpotL frontier.old s }
    ensures { (p : SpotL frontier.old s) → Laid frontier.old frontier.new s (tilt_l p.l) p.k p.r p.lo p.hi }
{
    let x = get(frontier, s, LEFT);
    if high_left(frontier, x) < high_right(frontier, x) {
        let t = rotate_left(frontier, x);
        store(frontier, s, LEFT, t);
    }
}

// Turns the right child of slot s to the right if its left tree is the higher.
fn tilt_right(frontier: &mut [u64], s: u64)
    requires { SpotR frontier.old s }
    ensures { (p : SpotR frontier.old s) → Laid frontier.old frontier.new s p.l p.k (tilt_r p.r) p.lo p.hi }
{
    let x = get(frontier, s, RIGHT);
    if high_right(frontier, x) < high_left(frontier, x) {
        let t = rotate_right(frontier, x);
        store(frontier, s, RIGHT, t);
    }
}

// Puts slot s in order above its two trees, by the signed difference of their heights. Returns the slot that is then on top.
fn rebalance(frontier: &mut [u64], s: u64) -> u64
    requires { Spot frontier.old s }
    ensures { (p : Spot frontier.old s) → Made frontier.old frontier.new result (bal p.l s p.k p.r) p.lo p.hi }
{
    update_height(frontier, s);
    let l = high_left(frontier, s);
    let r = high_right(frontier, s);
    let balance = (l as i64) - (r as i64);
    if balance > 1 {
        tilt_left(frontier, s);
        rotate_right(frontier, s)
    } else if balance < -1 {
        tilt_right(frontier, s);
        rotate_left(frontier, s)
    } else {
        s
    }
}

// Hangs the tree at child to the left of slot s, and puts s in order. Returns the slot that is then on top.
fn graft_left(frontier: &mut [u64], s: u64, child: u64) -> u64
    requires { GraftL frontier.old s child }
    ensures { (p : GraftL frontier.old s child) → Made frontier.old frontier.new result (bal p.t s p.k p.r) p.lo p.hi }
{
    store(frontier, s, LEFT, child);
    rebalance(frontier, s)
}

fn graft_right(frontier: &mut [u64], s: u64, child: u64) -> u64
    requires { GraftR frontier.old s child }
    ensures { (p : GraftR frontier.old s child) → Made frontier.old frontier.new result (bal p.l s p.k p.t) p.lo p.hi }
{
    store(frontier, s, RIGHT, child);
    rebalance(frontier, s)
}

// Puts the new slot s into the tree at root. Returns the slot that is then on top.
pub fn insert(frontier: &mut [u64], root: u64, s: u64) -> u64
    requires { Room frontier.old root s }
    ensures { (p : Room frontier.old root s) → Made frontier.old frontier.new result (ins s p.k p.t) p.lo p.hi }
{
    if root == NIL {
        s
    } else if get(frontier, s, KEY) < get(frontier, root, KEY) {
        let l = get(frontier, root, LEFT);
        let child = insert(frontier, l, s);
        graft_left(frontier, root, child)
    } else {
        let r = get(frontier, root, RIGHT);
        let child = insert(frontier, r, s);
        graft_right(frontier, root, child)
    }
}

// What a tree is without a slot, and that slot.
#[derive(Clone, Copy)]
pub struct Removed {
    pub root: u64,
    pub slot: u64,
}

// Takes the least slot out of the tree at root.
fn detach_min(frontier: &mut [u64], root: u64) -> Removed
    requires { Full frontier.old root }
    ensures { (p : Full frontier.old root) → Cut frontier.old frontier.new result.root result.slot p.t p.lo p.hi }
{
    let left = get(frontier, root, LEFT);
    if left == NIL {
        let rest = get(frontier, root, RIGHT);
        store(frontier, root, RIGHT, NIL);
        return Removed {
            root: rest,
            slot: root,
        };
    }
    let d = detach_min(frontier, left);
    Removed {
        root: graft_left(frontier, root, d.root),
        ..d
    }
}

// Makes one tree of two, the columns of the first below those of the second.
fn unite(frontier: &mut [u64], l: u64, r: u64) -> u64
    requires { Pair frontier.old l r }
    ensures { (p : Pair frontier.old l r) → Made frontier.old frontier.new result (join p.l p.r) p.lo p.hi }
{
    if l == NIL {
        return r;
    }
    if r == NIL {
        return l;
    }
    let d = detach_min(frontier, r);
    store(frontier, d.slot, LEFT, l);
    graft_right(frontier, d.slot, d.root)
}

// Makes slot s a tree of its own.
pub fn clear(frontier: &mut [u64], s: u64)
    requires { At frontier.old s }
    ensures { frontier.new ≡ cleared frontier.old s }
{
    store(frontier, s, LEFT, NIL);
    store(frontier, s, RIGHT, NIL);
    store(frontier, s, HEIGHT, 1);
}

// Takes the slot of the column out of the tree at root.
pub fn remove(frontier: &mut [u64], root: u64, column: u64) -> Removed
    requires { Has frontier.old root column }
    ensures { (p : Has frontier.old root column) → Gone frontier.old frontier.new result.root result.slot column p.t p.lo p.hi }
{
    let here = get(frontier, root, KEY);
    let l = get(frontier, root, LEFT);
    let r = get(frontier, root, RIGHT);
    if column < here {
        let d = remove(frontier, l, column);
        Removed {
            root: graft_left(frontier, root, d.root),
            ..d
        }
    } else if here < column {
        let d = remove(frontier, r, column);
        Removed {
            root: graft_right(frontier, root, d.root),
            ..d
        }
    } else {
        clear(frontier, root);
        Removed {
            root: unite(frontier, l, r),
            slot: root,
        }
    }
}

// The link that a word stores: a slot, or none.
#[tactic(auto, unfolding(crate::specs::Links::link_of))]
pub fn linked(x: u64) -> Option<u64>
    ensures { result ≡ link_of x }
{
    if x == NIL { None } else { Some(x) }
}

// The words of a search, NIL for none: the slot of the column; of the last lower column on the way there, which is the nearest where the
// column is not there; and of the least column at it or above.
#[derive(Clone, Copy)]
pub struct Way {
    pub same: u64,
    pub before: u64,
    pub from: u64,
}

pub fn search(frontier: &[u64], root: u64, column: u64) -> Way
    requires { Whole frontier.now root }
    ensures { (p : Whole frontier.now root) → Seen column p.t nil nil nil result.same result.before result.from }
{
    let mut current = root;
    let mut before = NIL;
    let mut from = NIL;
    // A while loop: it goes down the tree by its links, so there is no range to go over.
    while current != NIL {
        let here = get(frontier, current, KEY);
        if column < here {
            from = current;
            current = get(frontier, current, LEFT);
        } else if here < column {
            before = current;
            current = get(frontier, current, RIGHT);
        } else {
            return Way {
                same: current,
                before,
                from: current,
            };
        }
    }
    Way {
        same: NIL,
        before,
        from,
    }
}
