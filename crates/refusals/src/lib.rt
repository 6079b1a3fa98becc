// The refusals of a call, a step or a batch, by name. Outside, in the words of an answer and in the rule, each is its number.
#![tactic(auto)]

ghost use Rattle.std.specs.Prelude.{◌≡◌};
ghost use Rattle.refusals.specs.Numbers.{number_of};

#[derive(Clone, Copy, Debug, PartialEq, Eq)]
pub enum Refusal {
    // Memory lent too short, or a setting that is none.
    Order,
    // The file, byte by byte.
    Short,
    Form,
    Limit,
    Surplus,
    // The file as a whole.
    Reference,
    Text,
    Space,
    Circle,
    List,
    // The solver.
    Column,
    Work,
    Stack,
    Memo,
    Kept,
    Frontier,
    Plans,
    // The page.
    Visit,
    Depth,
    Output,
    Spans,
    Visits,
    // A live report.
    Place,
    Rows,
    // What has no place in its width, beside a column.
    Indent,
    Cost,
    // A desk, a batch.
    Desk,
    Documents,
}

impl Refusal {
    pub fn number(self) -> u32
        ensures { result ≡ number_of self }
    {
        match self {
            Refusal::Order => 1,
            Refusal::Short => 2,
            Refusal::Form => 3,
            Refusal::Limit => 4,
            Refusal::Surplus => 5,
            Refusal::Reference => 6,
            Refusal::Text => 7,
            Refusal::Space => 8,
            Refusal::Circle => 9,
            Refusal::List => 10,
            Refusal::Column => 11,
            Refusal::Work => 12,
            Refusal::Stack => 13,
            Refusal::Memo => 14,
            Refusal::Kept => 15,
            Refusal::Frontier => 16,
            Refusal::Plans => 17,
            Refusal::Visit => 18,
            Refusal::Depth => 19,
            Refusal::Output => 20,
            Refusal::Spans => 21,
            Refusal::Visits => 22,
            Refusal::Place => 23,
            Refusal::Rows => 24,
            Refusal::Indent => 25,
            Refusal::Cost => 26,
            Refusal::Desk => 28,
            Refusal::Documents => 29,
        }
    }
}
