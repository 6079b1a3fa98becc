// The edges and the choice edges, and surplus bytes.
ghost use Rattle.std.specs.Prelude.{◌≡◌, ◌≤◌, length, take};
ghost use Rattle.file_form.specs.Numbers.{after_numbers, numbers, surplus};

use file_fields::{Step, number_at, refused};

#[tactic(auto, using(crate::proofs::Turns::number_turn), unfolding(crate::specs::Numbers::after_numbers, crate::specs::Numbers::numbers))]
pub fn numbers_at(s: &[u8], p: Step, count: usize, t: &mut [u32]) -> Step
    requires { count ≤ length t.old }
    ensures { (result ≡ after_numbers s.now p count) × (take count t.new ≡ numbers s.now p count) }
{
    let mut q = p;
    for number in &mut t[..count] {
        q = number_at(s, true, q);
        *number = q.value;
    }
    q
}

// Bytes after the last text are surplus (5).
#[tactic(auto, using(std::proofs::lemmas::Bool::Decides::nat_tests), unfolding(crate::specs::Numbers::surplus))]
pub fn surplus(s: &[u8], p: Step) -> Step
    ensures { result ≡ surplus s.now p }
{
    if p.fault != 0 || p.at == s.len() {
        return p;
    }
    refused(5, p.at)
}
