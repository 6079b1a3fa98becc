// The tables of a prepared file: the numbers by which they refer to each other, each its own type (from laidout's prepare.rs), and reads of their rows
// that are total: past a table's end the words are zeros, as in the definitions.
#![tactic(auto)]

ghost use Rattle.std.specs.Prelude.{◌≡◌, [], ◌<◌, get_or, MatchResult};
ghost use Rattle.file_tables.specs.Tables.{RowIs};
ghost use Rattle.file_tables.specs.Kinds.{number_of};

#[derive(Clone, Copy)]
pub struct NodeId(pub u32);

#[derive(Clone, Copy)]
pub struct TextId(pub u32);

#[derive(Clone, Copy)]
pub struct AnnotationId(pub u32);

// The kinds of a node, in the order of the numbers by which rows name them.
#[derive(Clone, Copy)]
pub enum Kind {
    Empty,
    Text,
    Break,
    HardLine,
    Seq,
    Group,
    Fill,
    Nest,
    Align,
    Choice,
    Annotate,
    Penalty,
}

// A number that no kind has.
#[derive(Clone, Copy)]
pub struct NoKind;

impl TryFrom<u32> for Kind {
    type Error = NoKind;

    ghost try_from_gives = { λ n r. MatchResult r (λ k. number_of k ≡ n) (λ _. 11 < n) };

    fn try_from(number: u32) -> Result<Kind, NoKind> {
        match number {
            0 => Ok(Kind::Empty),
            1 => Ok(Kind::Text),
            2 => Ok(Kind::Break),
            3 => Ok(Kind::HardLine),
            4 => Ok(Kind::Seq),
            5 => Ok(Kind::Group),
            6 => Ok(Kind::Fill),
            7 => Ok(Kind::Nest),
            8 => Ok(Kind::Align),
            9 => Ok(Kind::Choice),
            10 => Ok(Kind::Annotate),
            11 => Ok(Kind::Penalty),
            _ => Err(NoKind),
        }
    }
}

// The row of a node.
pub fn node_row(nodes: &[[u32; 8]], node: NodeId) -> [u32; 8]
    ensures { RowIs result (get_or nodes.now node.0 []) }
{
    nodes.get(node.0 as usize).copied().unwrap_or([0; 8])
}

// Word k of row i.
fn word<const N: usize>(rows: &[[u32; N]], i: usize, k: usize) -> u32
    requires { k < N }
    ensures { result ≡ get_or (get_or rows.now i []) k 0 }
{
    match rows.get(i) {
        Some(row) => row[k],
        None => 0,
    }
}

// Word k of node i.
pub fn node_word(nodes: &[[u32; 8]], i: usize, k: usize) -> u32
    requires { k < 8 }
    ensures { result ≡ get_or (get_or nodes.now i []) k 0 }
{
    word(nodes, i, k)
}

// Word k of text i.
pub fn text_word(texts: &[[u32; 3]], i: usize, k: usize) -> u32
    requires { k < 3 }
    ensures { result ≡ get_or (get_or texts.now i []) k 0 }
{
    word(texts, i, k)
}
