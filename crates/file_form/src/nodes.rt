// The node records.
ghost use Rattle.std.specs.Prelude.{◌≡◌, ◌≤◌, length, take};
ghost use Rattle.file_form.specs.Nodes.{checked, map_at, kind_at, node_at, after_nodes, read_node_rows};

use crate::kinds::{map_right, pair_right};
use file_fields::{Step, byte_at, field_at, number_at, refused};

// A node's row, and the step after its record.
#[derive(Clone, Copy)]
pub struct Node {
    pub row: [u32; 8],
    pub next: Step,
}

// A byte that is right, or form (3).
#[tactic(auto, using(std::proofs::lemmas::Bool::Decides::nat_tests), unfolding(crate::specs::Nodes::checked))]
fn checked(ok: bool, f: Step) -> Step
    ensures { result ≡ checked ok f }
{
    if f.fault != 0 || ok {
        return f;
    }
    refused(3, f.at)
}

fn map_at(s: &[u8], p: Step) -> Step
    ensures { result ≡ map_at s.now p }
{
    let b = byte_at(s, p);
    checked(map_right(b.value), b)
}

fn kind_at(s: &[u8], m: u32, p: Step) -> Step
    ensures { result ≡ kind_at s.now m p }
{
    let b = byte_at(s, p);
    checked(pair_right(m, b.value), b)
}

pub fn node_at(s: &[u8], p: Step) -> Node
    ensures { result ≡ node_at s.now p }
{
    let map = map_at(s, p);
    let m = map.value;
    let kind = kind_at(s, m, map);
    let first = field_at(s, m / 1 % 2 == 1, kind);
    let second = field_at(s, m / 2 % 2 == 1, first);
    let flat = number_at(s, m / 4 % 2 == 1, second);
    let start = field_at(s, m / 8 % 2 == 1, flat);
    let len = field_at(s, m / 16 % 2 == 1, start);
    let skipped = field_at(s, m / 32 % 2 == 1, len);
    Node {
        row: [
            kind.value,
            first.value,
            second.value,
            m / 4 % 2,
            flat.value,
            start.value,
            len.value,
            skipped.value,
        ],
        next: skipped,
    }
}

#[tactic(auto, using(crate::proofs::Turns::node_turn), unfolding(crate::specs::Nodes::after_nodes, crate::specs::Nodes::read_node_rows))]
pub fn nodes_at(s: &[u8], p: Step, count: usize, t: &mut [[u32; 8]]) -> Step
    requires { count ≤ length t.old }
    ensures { (result ≡ after_nodes s.now p count) × (take count t.new ≡ read_node_rows s.now p count) }
{
    let mut q = p;
    for row in &mut t[..count] {
        let Node { row: read, next } = node_at(s, q);
        *row = read;
        q = next;
    }
    q
}
