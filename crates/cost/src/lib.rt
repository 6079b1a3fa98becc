// The cost of a layout, overflow and then burden: what text, newlines and penalties cost, sums that may have no place, the order (from laidout's cost.rs).
#![tactic(auto)]

ghost use Rattle.std.specs.Prelude.{◌≡◌, ◌+◌, ◌-◌, ◌*◌, ◌^◌, ◌<◌};
ghost use Rattle.cost.specs.Cost.{add, cheap, cheaper};
ghost use Rattle.cost.specs.Charge.{over, charged, newline_cost, penalty_cost};
ghost use Rattle.cost.specs.Value.{halves, value, halved, halved_within, cost, within, text_outcome, newline_outcome, outcome, domain_number};

// Overflow below 2^128 in two halves, burden below 2^64. The order goes by overflow, then by burden.
#[derive(Clone, Copy, PartialEq, Eq, PartialOrd, Ord)]
pub struct ConsumerCost {
    pub overflow_high: u64,
    pub overflow_low: u64,
    pub burden: u64,
}

// What is past its width.
#[derive(Clone, Copy, Debug, PartialEq, Eq)]
pub enum Reason {
    Column,
    Indent,
    Overflow,
    Burden,
}

// The number of a refusal for what is past its width. It stays a number: the definition `domain_number`, which is what the answers' numbers are, speaks of it.
pub fn domain_number(reason: Reason) -> u32
    ensures { result ≡ domain_number reason }
{
    match reason {
        Reason::Column => 11,
        Reason::Indent => 25,
        Reason::Overflow => 26,
        Reason::Burden => 26,
    }
}

// The settings that costs depend on.
#[derive(Clone, Copy)]
pub struct PreparedConsumerCostModel {
    pub width: u32,
    pub newline_cost: u32,
    pub rule: u32,
}

impl PreparedConsumerCostModel {
    pub fn over(self, column: u32) -> u64
        ensures { (result ≡ Rattle.cost.specs.Charge.over self.width column) × (result < 2 ^ 32) }
    {
        column.saturating_sub(self.width) as u64
    }

    // What a line of so many columns is charged: under rule 2 its excess, else the square of it.
    pub fn charge(self, columns: u32) -> u64
        ensures { result ≡ charged self.rule self.width columns }
    {
        let excess = self.over(columns);
        if self.rule == 2 {
            excess
        } else {
            excess * excess
        }
    }
}

// The sum of two overflows, if it has its place: the carry of the low halves goes into the high half.
fn add_halves(high: u64, low: u64, other_high: u64, other_low: u64) -> Option<(u64, u64)>
    ensures { halved result ≡ halved_within (halves high low + halves other_high other_low) }
{
    let (sum, carry) = low.carrying_add(other_low, false);
    let (top, past) = high.carrying_add(other_high, carry);
    if past { None } else { Some((top, sum)) }
}

impl ConsumerCost {
    // The zero cost.
    pub const ZERO: ConsumerCost = ConsumerCost {
        overflow_high: 0,
        overflow_low: 0,
        burden: 0,
    };

    // Text of a width that starts at a column.
    pub fn text(
        model: PreparedConsumerCostModel,
        column: u32,
        width: u32,
    ) -> Result<ConsumerCost, Reason>
        ensures { outcome result ≡ text_outcome model.rule model.width column width }
    {
        let end = column.checked_add(width).ok_or(Reason::Column)?;
        Ok(ConsumerCost {
            overflow_low: model.charge(end) - model.charge(column),
            ..ConsumerCost::ZERO
        })
    }

    // A newline to an indent. It never fails: what a column is charged and a newline cost have their places.
    pub fn newline(model: PreparedConsumerCostModel, indent: u32) -> Result<ConsumerCost, Reason>
        ensures says { outcome result ≡ newline_outcome model.rule model.width model.newline_cost indent }
        ensures fits { outcome result ≡ cost (newline_cost (charged model.rule model.width) model.newline_cost indent) }
    {
        Ok(ConsumerCost {
            overflow_high: 0,
            overflow_low: model.charge(indent),
            burden: model.newline_cost as u64,
        })
    }

    pub fn penalty(amount: u32) -> Self
        ensures { value result ≡ penalty_cost amount }
    {
        ConsumerCost {
            burden: amount as u64,
            ..ConsumerCost::ZERO
        }
    }

    // The sum, where both parts fit; the overflow is looked at first.
    pub fn checked_add(self, other: Self) -> Result<ConsumerCost, Reason>
        ensures { outcome result ≡ within (add (value self) (value other)) }
    {
        let (overflow_high, overflow_low) = add_halves(
            self.overflow_high,
            self.overflow_low,
            other.overflow_high,
            other.overflow_low,
        )
        .ok_or(Reason::Overflow)?;
        let burden = self.burden.checked_add(other.burden).ok_or(Reason::Burden)?;
        Ok(ConsumerCost {
            overflow_high,
            overflow_low,
            burden,
        })
    }

    // Costs no more than the other.
    pub fn at_most(self, other: Self) -> bool
        ensures { result ≡ cheap (value self) (value other) }
    {
        self <= other
    }

    // Costs strictly less than the other.
    pub fn less(self, other: Self) -> bool
        ensures { result ≡ cheaper (value self) (value other) }
    {
        self < other
    }
}
