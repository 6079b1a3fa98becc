// What a node's row says (laidout's PreparedNode), a leaf's one candidate, and the tasks that a node with children pushes first.
// No run of an accepted file reads past a table's end.
#![tactic(auto)]

ghost use Rattle.std.specs.Prelude.{◌≡◌, List, [], ℕ, ◌<◌, ◌≤◌, ◌-◌, length, get_or};
ghost use Rattle.std.proofs.Math.Option.{some};
ghost use Rattle.layout.specs.Rules.{Rules, policy};
ghost use Rattle.machine.specs.Model.{Prepared};
ghost use Rattle.machine.specs.Solver.{begin_union, begin_choice, push_alternatives, newline};
ghost use Rattle.file_tables.specs.Tables.{flat, width};
ghost use Rattle.file_tables.specs.Kinds.{number_of};
ghost use Rattle.solve_workspace.specs.Meets.{Meets, counts, Sound};
ghost use Rattle.solve_workspace.specs.Frames.{Keeps};
ghost use Rattle.solve_workspace.specs.Turns.{reached};
ghost use Rattle.solve_workspace.specs.Rows.{Row, abs};
ghost use Rattle.solve_workspace.specs.Reading.{tables, rules, node_of_kind, node_of_row, edge_part};
ghost use Rattle.machine.specs.Model.{children};
ghost use Rattle.solve_node.specs.Begun.{Leafed, leaf_scratch, Filling, Begins, first_of, link_of, ChildIs, single_begun, inner_begun, Started, skipping, listed};

use cost::{ConsumerCost, Reason};
use file_tables::{AnnotationId, Kind, NodeId, TextId, node_row, text_word};
use frontier::ScratchCandidate;
use memo::MemoKey;
use plan::{PendingPlan, PlanNode};
use solve_workspace::{Bounds, ExactTask, Halt, Registers, RenderOptions};

// Nodes that become a frontier of one candidate.
#[derive(Clone, Copy)]
pub enum Leaf {
    Empty,
    Text { text: TextId, width: u32 },
    Newline,
}

// Nodes that evaluate one child first.
#[derive(Clone, Copy)]
pub enum Single {
    Sequence {
        first: NodeId,
    },
    Alias {
        child: NodeId,
    },
    Nest {
        indent: u32,
        child: NodeId,
    },
    Align {
        child: NodeId,
    },
    Annotate {
        annotation: AnnotationId,
        child: NodeId,
    },
    Penalty {
        amount: u32,
        child: NodeId,
    },
}

// Nodes with children. A Group with a flat node and a Choice without a list are unions.
#[derive(Clone, Copy)]
pub enum Inner {
    Single(Single),
    Union {
        preferred: NodeId,
        alternative: NodeId,
    },
    Choice {
        start: u32,
        len: u32,
        skipped: u32,
    },
}

// A node as its step needs it. A Seq or Fill without children is a leaf.
#[derive(Clone, Copy)]
pub enum PreparedNode {
    Leaf(Leaf),
    Inner(Inner),
}

// ---- reads

fn text_width(texts: &[[u32; 3]], text: TextId) -> u32
    ensures { result ≡ width (get_or texts.now text.0 []) }
{
    text_word(texts, text.0 as usize, 0)
}

// A range of edges or choices, as much of it as there is.
fn part(words: &[u32], start: u32, len: u32) -> &[u32]
    ensures { result.now ≡ edge_part words.now start len }
{
    let rest = &words[(start as usize).min(words.len())..];
    &rest[..(len as usize).min(rest.len())]
}

// Child `index`, if there are so many.
fn child_at(children: &[u32], index: u32) -> Option<NodeId>
    ensures { ChildIs children.now index result }
{
    let at = index as usize;
    if at < children.len() {
        Some(NodeId(children[at]))
    } else {
        None
    }
}

fn flat_node(nodes: &[[u32; 8]], node: NodeId) -> Option<NodeId>
    ensures { result ≡ link_of (flat (get_or nodes.now node.0 [])) }
{
    let row = node_row(nodes, node);
    if row[3] == 1 {
        Some(NodeId(row[4]))
    } else {
        None
    }
}

// ---- a node's row

// The kind that a number names. The definitions read a number past the kinds as the last.
fn kind_of(number: u32) -> Kind
    ensures { (es : List ℕ) (a b : ℕ) → node_of_kind es number a b ≡ node_of_kind es (number_of result) a b }
{
    match Kind::try_from(number) {
        Ok(kind) => kind,
        Err(_) => Kind::Penalty,
    }
}

fn sequence_node(children: &[u32]) -> PreparedNode
    ensures { result ≡ first_of children.now }
{
    match child_at(children, 0) {
        Some(first) => PreparedNode::Inner(Inner::Single(Single::Sequence { first })),
        None => PreparedNode::Leaf(Leaf::Empty),
    }
}

fn group_node(nodes: &[[u32; 8]], child: NodeId) -> PreparedNode
    ensures { (R : Rules) (es cs : List ℕ) (ts : List Row) (bs : List ℕ) (annotations root space n : ℕ) → Begins R (tables nodes.now es cs ts bs annotations root space) n (node_of_kind es 5 child.0 0) result }
{
    match flat_node(nodes, child) {
        Some(flat) => PreparedNode::Inner(Inner::Union {
            preferred: flat,
            alternative: child,
        }),
        None => PreparedNode::Inner(Inner::Single(Single::Alias { child })),
    }
}

fn choice_node(
    nodes: &[[u32; 8]],
    node: NodeId,
    preferred: NodeId,
    alternative: NodeId,
) -> PreparedNode
    ensures { (R : Rules) (es cs : List ℕ) (ts : List Row) (bs : List ℕ) (annotations root space : ℕ) → Begins R (tables nodes.now es cs ts bs annotations root space) node.0 (node_of_kind es 9 preferred.0 alternative.0) result }
{
    let row = node_row(nodes, node);
    if row[6] == 0 {
        PreparedNode::Inner(Inner::Union {
            preferred,
            alternative,
        })
    } else {
        PreparedNode::Inner(Inner::Choice {
            start: row[5],
            len: row[6],
            skipped: row[7],
        })
    }
}

// A node of the tables.
pub fn prepared_node(
    nodes: &[[u32; 8]],
    edges: &[u32],
    texts: &[[u32; 3]],
    node: NodeId,
) -> PreparedNode
    ensures { (R : Rules) (cs bs : List ℕ) (annotations root space : ℕ) → Begins R (tables nodes.now edges.now cs texts.now bs annotations root space) node.0 (node_of_row edges.now (get_or nodes.now node.0 [])) result }
{
    let row = node_row(nodes, node);
    let first = row[1];
    let second = row[2];
    match kind_of(row[0]) {
        Kind::Empty => PreparedNode::Leaf(Leaf::Empty),
        Kind::Text => {
            let text = TextId(first);
            let width = text_width(texts, text);
            PreparedNode::Leaf(Leaf::Text { text, width })
        }
        Kind::Break | Kind::HardLine => PreparedNode::Leaf(Leaf::Newline),
        Kind::Seq | Kind::Fill => sequence_node(part(edges, first, second)),
        Kind::Group => group_node(nodes, NodeId(first)),
        Kind::Nest => PreparedNode::Inner(Inner::Single(Single::Nest {
            indent: first,
            child: NodeId(second),
        })),
        Kind::Align => PreparedNode::Inner(Inner::Single(Single::Align {
            child: NodeId(first),
        })),
        Kind::Choice => choice_node(nodes, node, NodeId(first), NodeId(second)),
        Kind::Annotate => PreparedNode::Inner(Inner::Single(Single::Annotate {
            annotation: AnnotationId(first),
            child: NodeId(second),
        })),
        Kind::Penalty => PreparedNode::Inner(Inner::Single(Single::Penalty {
            amount: first,
            child: NodeId(second),
        })),
    }
}

// ---- nodes with children

// Nest and Align set an indent; policy 1 lowers it below the page width.
fn effective_indent(options: RenderOptions, indent: u32) -> u32
    ensures { result ≡ policy options.policy options.width indent }
{
    if options.policy == 0 {
        return indent;
    }
    indent.min(options.width.saturating_sub(1))
}

// The task that completes a node, and the child that is evaluated first; or what has no place.
fn first_child(
    options: RenderOptions,
    key: MemoKey,
    node: Single,
) -> Result<(ExactTask, MemoKey), Reason>
    ensures { Started (rules options) node key result }
{
    match node {
        Single::Sequence { first } => {
            let task = ExactTask::ContinueSequence {
                key,
                child_index: 1,
            };
            Ok((
                task,
                MemoKey {
                    node: first.0,
                    ..key
                },
            ))
        }
        Single::Alias { child } => Ok((
            ExactTask::CompleteAlias(key),
            MemoKey {
                node: child.0,
                ..key
            },
        )),
        Single::Nest { indent, child } => {
            let nested = key.indent.checked_add(indent).ok_or(Reason::Indent)?;
            let inner = MemoKey {
                node: child.0,
                indent: effective_indent(options, nested),
                ..key
            };
            Ok((ExactTask::CompleteAlias(key), inner))
        }
        Single::Align { child } => {
            let inner = MemoKey {
                node: child.0,
                indent: effective_indent(options, key.column),
                ..key
            };
            Ok((ExactTask::CompleteAlias(key), inner))
        }
        Single::Annotate { annotation, child } => Ok((
            ExactTask::CompleteAnnotate { key, annotation },
            MemoKey {
                node: child.0,
                ..key
            },
        )),
        Single::Penalty { amount, child } => Ok((
            ExactTask::CompletePenalty { key, amount },
            MemoKey {
                node: child.0,
                ..key
            },
        )),
    }
}

fn begin_single(
    options: RenderOptions,
    b: Bounds,
    g: &mut Registers,
    tasks: &mut [[u32; 9]],
    key: MemoKey,
    node: Single,
) -> Result<(), Halt>
    requires { (b.stack ≤ length tasks.old) × Sound b g.old }
    ensures meets { (P : Prepared) (rs ps es ks : List Row) (fs : List ℕ) (ns : List Row) → Meets b (counts g.old) (single_begun (rules options) P node key (abs g.old tasks.old rs ps es ks fs ns)) (reached result g.new) (λ s. abs s tasks.new rs ps es ks fs ns) }
    ensures keeps { Keeps g.old (reached result g.new) }
{
    let (task, child) = first_child(options, key, node)?;
    solve_workspace::push_child(b, g, tasks, task, child)
}

// Preferred is to be evaluated first, so it is pushed last.
fn begin_union(
    b: Bounds,
    g: &mut Registers,
    tasks: &mut [[u32; 9]],
    key: MemoKey,
    preferred: NodeId,
    alternative: NodeId,
) -> Result<(), Halt>
    requires { (b.stack ≤ length tasks.old) × Sound b g.old }
    ensures meets { (R : Rules) (P : Prepared) (rs ps es ks : List Row) (fs : List ℕ) (ns : List Row) → Meets b (counts g.old) (begin_union R P preferred.0 alternative.0 key (abs g.old tasks.old rs ps es ks fs ns)) (reached result g.new) (λ s. abs s tasks.new rs ps es ks fs ns) }
    ensures keeps { Keeps g.old (reached result g.new) }
{
    let other = MemoKey {
        node: alternative.0,
        ..key
    };
    solve_workspace::push_child(b, g, tasks, ExactTask::CompleteUnion(key), other)?;
    let first = MemoKey {
        node: preferred.0,
        ..key
    };
    solve_workspace::push_exact_task(b, g, tasks, ExactTask::Eval(first))
}

// The Choices that the list skips count as work, as if they had been evaluated.
fn skip_choices(b: Bounds, g: &mut Registers, skipped: u32) -> Result<(), Halt>
    requires { Sound b g.old }
    ensures meets { (R : Rules) (P : Prepared) (ts rs ps es ks : List Row) (fs : List ℕ) (ns : List Row) → Meets b (counts g.old) (skipping R P skipped (abs g.old ts rs ps es ks fs ns)) (reached result g.new) (λ s. abs s ts rs ps es ks fs ns) }
    ensures keeps { Keeps g.old (reached result g.new) }
{
    for _ in 0..skipped {
        solve_workspace::work_miss(b, g)?;
    }
    Ok(())
}

// The last alternative is pushed first.
fn push_alternatives(
    b: Bounds,
    g: &mut Registers,
    tasks: &mut [[u32; 9]],
    alternatives: &[u32],
    key: MemoKey,
) -> Result<(), Halt>
    requires { (b.stack ≤ length tasks.old) × Sound b g.old }
    ensures meets { (R : Rules) (P : Prepared) (rs ps es ks : List Row) (fs : List ℕ) (ns : List Row) → Meets b (counts g.old) (push_alternatives R P alternatives.now key (abs g.old tasks.old rs ps es ks fs ns)) (reached result g.new) (λ s. abs s tasks.new rs ps es ks fs ns) }
    ensures keeps { Keeps g.old (reached result g.new) }
{
    for node in alternatives.iter().rev() {
        let child = MemoKey { node: *node, ..key };
        solve_workspace::push_exact_task(b, g, tasks, ExactTask::Eval(child))?;
    }
    Ok(())
}

fn begin_choice(
    b: Bounds,
    g: &mut Registers,
    tasks: &mut [[u32; 9]],
    alternatives: &[u32],
    key: MemoKey,
    skipped: u32,
) -> Result<(), Halt>
    requires { (b.stack ≤ length tasks.old) × Sound b g.old }
    ensures meets { (R : Rules) (P : Prepared) (rs ps es ks : List Row) (fs : List ℕ) (ns : List Row) → Meets b (counts g.old) (begin_choice R P (listed alternatives.now skipped) 0 0 key (abs g.old tasks.old rs ps es ks fs ns)) (reached result g.new) (λ s. abs s tasks.new rs ps es ks fs ns) }
    ensures keeps { Keeps g.old (reached result g.new) }
{
    skip_choices(b, g, skipped)?;
    let below = g.results as u32;
    solve_workspace::push_exact_task(
        b,
        g,
        tasks,
        ExactTask::CompleteChoiceSet {
            key,
            result_start: below,
        },
    )?;
    push_alternatives(b, g, tasks, alternatives, key)
}

// A node with children: its tasks are pushed.
pub fn begin_inner(
    options: RenderOptions,
    b: Bounds,
    g: &mut Registers,
    tasks: &mut [[u32; 9]],
    choices: &[u32],
    key: MemoKey,
    node: Inner,
) -> Result<(), Halt>
    requires { (b.stack ≤ length tasks.old) × Sound b g.old }
    ensures meets { (P : Prepared) (rs ps es ks : List Row) (fs : List ℕ) (ns : List Row) → Meets b (counts g.old) (inner_begun (rules options) P choices.now node key (abs g.old tasks.old rs ps es ks fs ns)) (reached result g.new) (λ s. abs s tasks.new rs ps es ks fs ns) }
    ensures keeps { Keeps g.old (reached result g.new) }
{
    match node {
        Inner::Single(single) => begin_single(options, b, g, tasks, key, single),
        Inner::Union {
            preferred,
            alternative,
        } => begin_union(b, g, tasks, key, preferred, alternative),
        Inner::Choice {
            start,
            len,
            skipped,
        } => begin_choice(b, g, tasks, part(choices, start, len), key, skipped),
    }
}

// ---- leaves

fn text_candidate(
    options: RenderOptions,
    column: u32,
    text: TextId,
    width: u32,
) -> Result<ScratchCandidate, Reason>
    ensures { (indent node : ℕ) → Leafed (rules options) (Leaf.Text text width) (record { node = node; column = column; indent = indent }) result }
{
    let model = solve_workspace::cost_model(options);
    let cost = ConsumerCost::text(model, column, width)?;
    Ok(solve_workspace::scratch_candidate(
        cost,
        column + width,
        PendingPlan::New(PlanNode::Text(text)),
    ))
}

// A newline to an indent; a Fill's gaps have it too. It always has its place.
pub fn newline_candidate(options: RenderOptions, indent: u32) -> Result<ScratchCandidate, Reason>
    ensures { (P : Prepared) → leaf_scratch result ≡ some (newline (rules options) P indent) }
{
    let model = solve_workspace::cost_model(options);
    let cost = ConsumerCost::newline(model, indent)?;
    Ok(solve_workspace::scratch_candidate(
        cost,
        indent,
        PendingPlan::New(PlanNode::Newline { indent }),
    ))
}

pub fn leaf_candidate(
    options: RenderOptions,
    key: MemoKey,
    leaf: Leaf,
) -> Result<ScratchCandidate, Reason>
    ensures { Leafed (rules options) leaf key result }
{
    match leaf {
        Leaf::Empty => Ok(solve_workspace::scratch_candidate(
            ConsumerCost::ZERO,
            key.column,
            PendingPlan::New(PlanNode::Empty),
        )),
        Leaf::Text { text, width } => text_candidate(options, key.column, text, width),
        Leaf::Newline => newline_candidate(options, key.indent),
    }
}

// ---- sequences

// Child `index` of a Seq or a Fill; other nodes have none.
pub fn sequence_child(nodes: &[[u32; 8]], edges: &[u32], node: NodeId, index: u32) -> Option<NodeId>
    ensures { ChildIs (children (node_of_row edges.now (get_or nodes.now node.0 []))) index result }
{
    let row = node_row(nodes, node);
    match kind_of(row[0]) {
        Kind::Seq | Kind::Fill => child_at(part(edges, row[1], row[2]), index),
        _ => None,
    }
}

// Whether a node is a Fill.
pub fn is_fill(nodes: &[[u32; 8]], node: NodeId) -> bool
    ensures { (es : List ℕ) → Filling (node_of_row es (get_or nodes.now node.0 [])) result }
{
    matches!(kind_of(node_row(nodes, node)[0]), Kind::Fill)
}
