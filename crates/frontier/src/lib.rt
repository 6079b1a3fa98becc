// The frontier of candidates in lent words, fourteen a slot: a tree by last column, the order of presentation, and the slots that are free again
// (laidout's FrontierSlot; document 01, "Candidate and frontier"). Counts, sizes and plans are crate solve_builder's.
#![tactic(auto)]

mod order;

ghost use Rattle.std.specs.Prelude.{◌≡◌, ◌≢◌};
ghost use Rattle.cost.specs.Cost.{cheap, cheaper};
ghost use Rattle.cost.specs.Value.{value};
ghost use Rattle.layout.specs.Frontier.{any};
ghost use Rattle.avl.specs.Mem.{At};
ghost use Rattle.avl.specs.Holds.{nil};
ghost use Rattle.avl.specs.Links.{link_of};
ghost use Rattle.frontier.specs.Candidates.{carried, cost_at, candidate_at, next, written_cost, written_plan, Stands};
ghost use Rattle.frontier.specs.Kept.{Sound, Frontier, Opened, Drop, Dropped, Roomy, Taken, Filled, Admit, Admitted, prunes, none_dearer, Looked, Effects, Fresh, Sifted, Presents};

pub use avl::larger;
use avl::{Way, get, store};
use cost::ConsumerCost;

const NIL: u64 = 18446744073709551615;

const OVERFLOW_HIGH: u64 = 0;

const OVERFLOW_LOW: u64 = 1;

const BURDEN: u64 = 2;

const LAST: u64 = 3;

const PRECEDENCE: u64 = 4;

const KIND: u64 = 5;

const FIRST: u64 = 6;

const SECOND: u64 = 7;

const NEXT: u64 = 9;

const FREE_NEXT: u64 = 10;

// A candidate that is presented: its pending plan is a kind and two words, which the solver gives a meaning.
#[derive(Clone, Copy)]
pub struct ScratchCandidate {
    pub cost: ConsumerCost,
    pub last: u32,
    pub precedence: u64,
    pub kind: u64,
    pub first: u64,
    pub second: u64,
}

// The registers of a frontier: links to the tree, to the ends of the order and to the free slots; the slots used so far; the candidates kept.
#[derive(Clone, Copy)]
pub struct Builder {
    pub root: u64,
    pub head: u64,
    pub tail: u64,
    pub free: u64,
    pub used: u64,
    pub live: u64,
}

// What a presented candidate leaves: the frontier, and how many were pruned.
#[derive(Clone, Copy)]
pub struct Presented {
    pub builder: Builder,
    pub pruned: u64,
}

// There is no room: how many slots it would take.
#[derive(Clone, Copy)]
pub struct Full {
    pub needed: u64,
}

// An empty frontier, whatever the lent memory holds.
pub fn begin_builder() -> Builder
    ensures { Opened result }
{
    Builder {
        root: NIL,
        head: NIL,
        tail: NIL,
        free: NIL,
        used: 0,
        live: 0,
    }
}

// ---- the words of a slot

fn cost_of(frontier: &[u64], s: u64) -> ConsumerCost
    requires { At frontier.now s }
    ensures { value result ≡ cost_at frontier.now s }
{
    ConsumerCost {
        overflow_high: get(frontier, s, OVERFLOW_HIGH),
        overflow_low: get(frontier, s, OVERFLOW_LOW),
        burden: get(frontier, s, BURDEN),
    }
}

fn store_cost(frontier: &mut [u64], s: u64, cost: ConsumerCost)
    requires { At frontier.old s }
    ensures { frontier.new ≡ written_cost frontier.old s cost }
{
    store(frontier, s, OVERFLOW_HIGH, cost.overflow_high);
    store(frontier, s, OVERFLOW_LOW, cost.overflow_low);
    store(frontier, s, BURDEN, cost.burden);
}

fn store_plan(frontier: &mut [u64], s: u64, candidate: ScratchCandidate)
    requires { At frontier.old s }
    ensures { frontier.new ≡ written_plan frontier.old s candidate.precedence candidate.kind candidate.first candidate.second }
{
    store(frontier, s, PRECEDENCE, candidate.precedence);
    store(frontier, s, KIND, candidate.kind);
    store(frontier, s, FIRST, candidate.first);
    store(frontier, s, SECOND, candidate.second);
}

// Makes slot s the candidate, and a tree of its own.
fn fill(frontier: &mut [u64], s: u64, candidate: ScratchCandidate)
    requires { At frontier.old s }
    ensures { Filled frontier.old frontier.new s (carried candidate) }
{
    store_cost(frontier, s, candidate.cost);
    store(frontier, s, LAST, candidate.last as u64);
    store_plan(frontier, s, candidate);
    avl::clear(frontier, s);
}

// ---- the tests of two costs

// The candidate in slot s costs no more: it stays beside a candidate of the cost at its own column or a lower one.
fn stays(frontier: &[u64], s: u64, cost: ConsumerCost) -> bool
    requires { At frontier.now s }
    ensures { result ≡ cheap (cost_at frontier.now s) (value cost) }
{
    cost_of(frontier, s).at_most(cost)
}

// The candidate in slot s costs strictly less: it prunes a candidate of the cost at a higher column.
fn beats(frontier: &[u64], s: u64, cost: ConsumerCost) -> bool
    requires { At frontier.now s }
    ensures { result ≡ cheaper (cost_at frontier.now s) (value cost) }
{
    cost_of(frontier, s).less(cost)
}

// ---- what a presented candidate does

// Whether a kept candidate prunes the presented one, by a search for its column. Where one is kept at its column no lower one need be asked:
// none costs less than that.
fn covered(frontier: &[u64], way: Way, candidate: ScratchCandidate) -> bool
    requires { Looked frontier.now candidate.last way }
    ensures { (p : Looked frontier.now candidate.last way) → result ≡ any (prunes frontier.now (carried candidate)) p.sound.kept.order }
{
    if way.same != NIL {
        stays(frontier, way.same, candidate.cost)
    } else {
        way.before != NIL && beats(frontier, way.before, candidate.cost)
    }
}

// Whether there is no slot s, or its candidate costs no more. Where s has the least column from a candidate's own on, this holds of all from
// there on: none costs more than that.
#[tactic(auto, unfolding(crate::specs::Kept::none_dearer))]
fn none_dearer(frontier: &[u64], s: u64, cost: ConsumerCost) -> bool
    requires { s ≢ nil → At frontier.now s }
    ensures { result ≡ none_dearer frontier.now s (value cost) }
{
    s == NIL || stays(frontier, s, cost)
}

// One of those that are kept prunes it; it comes beside them all; or it removes some.
#[derive(Clone, Copy)]
enum Effect {
    Pruned,
    Beside,
    Removing,
}

// One search for the candidate's column tells all.
fn weigh(frontier: &[u64], b: Builder, candidate: ScratchCandidate) -> Effect
    requires { Sound frontier.now b }
    ensures { (p : Sound frontier.now b) → Effects frontier.now (carried candidate) p.kept.order result }
{
    let way = avl::search(frontier, b.root, candidate.last as u64);
    if covered(frontier, way, candidate) {
        Effect::Pruned
    } else if none_dearer(frontier, way.from, candidate.cost) {
        Effect::Beside
    } else {
        Effect::Removing
    }
}

// ---- candidates out and in

// Takes the candidate of the column out, and keeps its slot as a free one.
fn discard(frontier: &mut [u64], b: Builder, column: u64) -> Builder
    requires { Drop frontier.old b column }
    ensures { (p : Drop frontier.old b column) → Dropped frontier.old frontier.new b result column p.kept.t p.kept.order }
{
    let d = avl::remove(frontier, b.root, column);
    let ends = order::unlink_precedence(
        frontier,
        d.slot,
        order::Ends {
            head: b.head,
            tail: b.tail,
        },
    );
    store(frontier, d.slot, FREE_NEXT, b.free);
    Builder {
        root: d.root,
        head: ends.head,
        tail: ends.tail,
        free: d.slot,
        used: b.used,
        live: b.live - 1,
    }
}

// Takes out those that the candidate removes: from its column on upwards, as long as they cost more.
fn prune(frontier: &mut [u64], builder: Builder, candidate: ScratchCandidate) -> Builder
    requires { Fresh frontier.old builder (carried candidate) }
    ensures { (p : Fresh frontier.old builder (carried candidate)) → Sifted frontier.old frontier.new builder result (carried candidate) p.sound.kept.order }
{
    let cost = candidate.cost;
    let last = candidate.last as u64;
    let mut b = builder;
    // No range to go over: each round takes a candidate out of the tree that the next one searches.
    loop {
        let way = avl::search(frontier, b.root, last);
        if none_dearer(frontier, way.from, cost) {
            return b;
        }
        let column = get(frontier, way.from, LAST);
        b = discard(frontier, b, column);
    }
}

// A slot for a new candidate, and the registers without it.
#[derive(Clone, Copy)]
struct Slot {
    slot: u64,
    free: u64,
    used: u64,
}

// The last slot that became free, or the first that was not used yet.
fn take(frontier: &[u64], b: Builder) -> Slot
    requires { Roomy frontier.now b }
    ensures { (p : Roomy frontier.now b) → Taken frontier.now p.size p.kept.order result.slot result.free result.used b.used }
{
    if b.free == NIL {
        Slot {
            slot: b.used,
            free: NIL,
            used: b.used + 1,
        }
    } else {
        Slot {
            slot: b.free,
            free: get(frontier, b.free, FREE_NEXT),
            used: b.used,
        }
    }
}

// Puts a candidate of a new column in, last in the order.
fn admit(frontier: &mut [u64], b: Builder, candidate: ScratchCandidate) -> Builder
    requires { Admit frontier.old b candidate.last }
    ensures { (p : Admit frontier.old b candidate.last) → Admitted frontier.old frontier.new p.roomy.size b result (carried candidate) p.roomy.kept.order }
{
    let place = take(frontier, b);
    fill(frontier, place.slot, candidate);
    let ends = order::append_precedence(
        frontier,
        place.slot,
        order::Ends {
            head: b.head,
            tail: b.tail,
        },
    );
    Builder {
        root: avl::insert(frontier, b.root, place.slot),
        head: ends.head,
        tail: ends.tail,
        free: place.free,
        used: place.used,
        live: b.live + 1,
    }
}

// Presents a candidate to a frontier of at most `size` candidates. Where it removes some there is room for it.
pub fn present(
    frontier: &mut [u64],
    size: u64,
    b: Builder,
    candidate: ScratchCandidate,
) -> Result<Presented, Full>
    requires { Frontier frontier.old size b }
    ensures { Presents frontier.old frontier.new size b (carried candidate) result }
{
    match weigh(frontier, b, candidate) {
        Effect::Pruned => Ok(Presented {
            builder: b,
            pruned: 1,
        }),
        Effect::Beside => {
            if size <= b.live {
                return Err(Full { needed: b.live + 1 });
            }
            Ok(Presented {
                builder: admit(frontier, b, candidate),
                pruned: 0,
            })
        }
        Effect::Removing => {
            let left = prune(frontier, b, candidate);
            Ok(Presented {
                builder: admit(frontier, left, candidate),
                pruned: b.live - left.live,
            })
        }
    }
}

// ---- the survivors, in order of presentation (finish_builder walks them)

// The first survivor's slot.
pub fn first(b: Builder) -> Option<u64>
    ensures { result ≡ link_of b.head }
{
    avl::linked(b.head)
}

// The slot of the survivor that was presented next after the one in slot s.
pub fn following(frontier: &[u64], s: u64) -> Option<u64>
    requires { Stands frontier.now s }
    ensures { result ≡ link_of (next frontier.now s) }
{
    avl::linked(get(frontier, s, NEXT))
}

// The candidate in slot s.
pub fn candidate(frontier: &[u64], s: u64) -> ScratchCandidate
    requires { Stands frontier.now s }
    ensures { carried result ≡ candidate_at frontier.now s }
{
    ScratchCandidate {
        cost: cost_of(frontier, s),
        last: get(frontier, s, LAST) as u32,
        precedence: get(frontier, s, PRECEDENCE),
        kind: get(frontier, s, KIND),
        first: get(frontier, s, FIRST),
        second: get(frontier, s, SECOND),
    }
}
