// Plans: layouts as records in an arena of lent rows. A record names earlier ones by their numbers, so that candidates share what they have in common.
// A row holds first, second and kind, as the reference's PlanRecord.
#![tactic(auto)]

ghost use Rattle.std.specs.Prelude.{◌≡◌, ◌+◌, ◌≤◌, ◌<◌, ◌^◌, length};
ghost use Rattle.plan.specs.Records.{node_record, record_of, node_of, pending_of, node_at};
ghost use Rattle.plan.specs.Arena.{view, additions, room_for, Committing};

use file_tables::{AnnotationId, TextId};

#[derive(Clone, Copy)]
pub struct PlanId(pub u32);

#[derive(Clone, Copy)]
pub enum PlanNode {
    Empty,
    Text(TextId),
    Newline {
        indent: u32,
    },
    Concat {
        left: PlanId,
        right: PlanId,
    },
    Annotate {
        annotation: AnnotationId,
        child: PlanId,
    },
    Penalty {
        amount: u32,
        child: PlanId,
    },
}

// The plan of a candidate that is not kept yet: one of the arena, or a record that would be new there.
#[derive(Clone, Copy)]
pub enum PendingPlan {
    Existing(PlanId),
    New(PlanNode),
}

// The kinds of a record: numbers, since rows are lent memory of a fixed layout.
const EMPTY: u32 = 0;

const TEXT: u32 = 1;

const NEWLINE: u32 = 2;

const CONCAT: u32 = 3;

const ANNOTATE: u32 = 4;

const PENALTY: u32 = 5;

// In a pending plan alone.
const EXISTING: u32 = 6;

#[derive(Clone, Copy)]
pub struct PlanRecord {
    pub first: u32,
    pub second: u32,
    pub kind: u32,
}

impl From<PlanNode> for PlanRecord {
    ghost from_gives = { λ node r. r ≡ node_record node };

    fn from(node: PlanNode) -> PlanRecord {
        let (kind, first, second) = match node {
            PlanNode::Empty => (EMPTY, 0, 0),
            PlanNode::Text(text) => (TEXT, text.0, 0),
            PlanNode::Newline { indent } => (NEWLINE, indent, 0),
            PlanNode::Concat { left, right } => (CONCAT, left.0, right.0),
            PlanNode::Annotate { annotation, child } => (ANNOTATE, annotation.0, child.0),
            PlanNode::Penalty { amount, child } => (PENALTY, amount, child.0),
        };
        PlanRecord {
            first,
            second,
            kind,
        }
    }
}

impl From<PendingPlan> for PlanRecord {
    ghost from_gives = { λ pending r. r ≡ record_of pending };

    fn from(pending: PendingPlan) -> PlanRecord {
        match pending {
            PendingPlan::Existing(plan) => PlanRecord {
                first: plan.0,
                second: 0,
                kind: EXISTING,
            },
            PendingPlan::New(node) => node.into(),
        }
    }
}

impl From<PlanRecord> for PlanNode {
    ghost from_gives = { λ words node. node ≡ node_of words.kind words.first words.second };

    fn from(words: PlanRecord) -> PlanNode {
        let PlanRecord {
            first,
            second,
            kind,
        } = words;
        match kind {
            EMPTY => PlanNode::Empty,
            TEXT => PlanNode::Text(TextId(first)),
            NEWLINE => PlanNode::Newline { indent: first },
            CONCAT => PlanNode::Concat {
                left: PlanId(first),
                right: PlanId(second),
            },
            ANNOTATE => PlanNode::Annotate {
                annotation: AnnotationId(first),
                child: PlanId(second),
            },
            _ => PlanNode::Penalty {
                amount: first,
                child: PlanId(second),
            },
        }
    }
}

impl From<PlanRecord> for PendingPlan {
    ghost from_gives = { λ words pending. pending ≡ pending_of words.kind words.first words.second };

    fn from(words: PlanRecord) -> PendingPlan {
        if words.kind < EXISTING {
            PendingPlan::New(words.into())
        } else {
            PendingPlan::Existing(PlanId(words.first))
        }
    }
}

// The arena has no room for the records that are asked for at once: how many it would have to hold.
#[derive(Clone, Copy)]
pub struct Full {
    pub needed: u64,
}

// The number of a committed plan, and the number of records then.
#[derive(Clone, Copy)]
pub struct Committed {
    pub plan: PlanId,
    pub count: usize,
}

pub fn pending_record(pending: PendingPlan) -> PlanRecord
    ensures { result ≡ record_of pending }
{
    pending.into()
}

// The pending plan whose words these are.
pub fn pending_plan(words: PlanRecord) -> PendingPlan
    ensures { result ≡ pending_of words.kind words.first words.second }
{
    words.into()
}

// The record of a plan.
pub fn plan_node(plans: &[[u32; 3]], id: PlanId) -> PlanNode
    requires { id.0 < length plans.now }
    ensures { result ≡ node_at plans.now id.0 }
{
    let [first, second, kind] = plans[id.0 as usize];
    PlanRecord {
        first,
        second,
        kind,
    }
    .into()
}

// How many records a pending plan adds.
pub fn additional_plans(pending: PendingPlan) -> usize
    ensures { result ≡ length (additions (view pending)) }
{
    match pending {
        PendingPlan::Existing(_) => 0,
        PendingPlan::New(_) => 1,
    }
}

// The size test, for all that is to be committed next.
pub fn ensure_plan(count: usize, additional: usize, size: usize) -> Result<(), Full>
    requires { count + additional < 2 ^ 64 }
    ensures { result ≡ room_for (count + additional) size }
{
    let required = count + additional;
    if size < required {
        Err(Full {
            needed: required as u64,
        })
    } else {
        Ok(())
    }
}

// Puts the pending plan into the arena, after its first `count` records, if it is not there.
pub fn commit_plan(plans: &mut [[u32; 3]], count: usize, pending: PendingPlan) -> Committed
    requires { (count + length (additions (view pending)) ≤ length plans.old) × (count + length (additions (view pending)) < 2 ^ 32) }
    ensures { Committing plans.old count (view pending) plans.new result }
{
    match pending {
        PendingPlan::Existing(plan) => Committed { plan, count },
        PendingPlan::New(node) => {
            let PlanRecord {
                first,
                second,
                kind,
            } = node.into();
            plans[count] = [first, second, kind];
            Committed {
                plan: PlanId(count as u32),
                count: count + 1,
            }
        }
    }
}
