// Which fields a node may carry, worked out per bit by comparisons on its kind. A `match` over kinds, or a chain of comparisons by `&&` and `||`, is compiled to a mask, which no part of
// this test may be (docs/DECISIONS.md 94), so each test here returns by itself: whoever edits it looks at the instructions again.
ghost use Rattle.std.specs.Prelude.{◌≡◌};
ghost use Rattle.file_form.specs.Kinds.{has_first, has_second, both, only, map_right, pair_right};

// Text, and Seq to Penalty.
#[tactic(auto, using(std::proofs::lemmas::Bool::Decides::nat_tests), unfolding(crate::specs::Kinds::has_first, crate::specs::Kinds::named))]
fn has_first(k: u32) -> bool
    ensures { result ≡ has_first k }
{
    if k == 1 {
        return true;
    }
    if k < 4 {
        return false;
    }
    k < 12
}

// Seq, Fill, Nest, and Choice to Penalty.
#[tactic(auto, using(std::proofs::lemmas::Bool::Decides::nat_tests), unfolding(crate::specs::Kinds::has_second, crate::specs::Kinds::named))]
fn has_second(k: u32) -> bool
    ensures { result ≡ has_second k }
{
    if k < 4 {
        return false;
    }
    if k == 5 {
        return false;
    }
    if k == 8 {
        return false;
    }
    k < 12
}

fn both(x: bool, y: bool) -> bool
    ensures { result ≡ both x y }
{
    if x {
        return y;
    }
    false
}

fn only(x: bool, y: bool) -> bool
    ensures { result ≡ only x y }
{
    if y {
        return true;
    }
    !x
}

#[tactic(auto, using(std::proofs::lemmas::Bool::Decides::nat_tests), unfolding(crate::specs::Kinds::map_right))]
pub fn map_right(m: u32) -> bool
    ensures { result ≡ map_right m }
{
    let start = m / 8 % 2 == 1;
    let length = m / 16 % 2 == 1;
    let skipped = m / 32 % 2 == 1;
    m <= 63 && (length || !start && !skipped)
}

#[tactic(auto, using(std::proofs::lemmas::Bool::Decides::nat_tests), unfolding(crate::specs::Kinds::pair_right))]
pub fn pair_right(m: u32, k: u32) -> bool
    ensures { result ≡ pair_right m k }
{
    let first = only(m / 1 % 2 == 1, has_first(k));
    let second = only(m / 2 % 2 == 1, has_second(k));
    let list = only(m / 16 % 2 == 1, k == 9);
    both(k < 12, both(first, both(second, list)))
}
