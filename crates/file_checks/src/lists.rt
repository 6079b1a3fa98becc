// Refusal 10: whether every choice list is right.
ghost use Rattle.std.specs.Prelude.{◌≡◌, [], ◌∷◌, ℕ, ◌+◌, ◌≤◌, ◌<◌, length};
ghost use Rattle.file_tables.specs.Tables.{choice_start, choice_length};
ghost use Rattle.file_checks.specs.Told.{Told};
ghost use Rattle.file_checks.specs.Choice.{ListsRight};
ghost use Rattle.file_checks.specs.Search.{Cut, Down, RowRight, ListsInside};

use file_tables::node_word;

// Whether the list xs comes from [first, second] by `skipped` replacements. The next node is on top of the stack, which grows down from
// the end of `stack`: if it equals the next of the list it is kept, otherwise it must be a Choice, and its two replace it.
fn list_right(
    nodes: &[[u32; 8]],
    first: u32,
    second: u32,
    skipped: u32,
    xs: &[u32],
    stack: &mut [u32],
) -> bool
    requires by_index { (y : ℕ) → Down nodes.now y y → ⊥ }
    requires xs_in_bounds { length xs.now ≤ length stack.old }
    ensures { Told (Cut nodes.now (first ∷ second ∷ []) xs.now skipped) result }
{
    let mut left = skipped as usize;
    if xs.len() != left + 2 {
        return false;
    }
    let mut sp = stack.len() - 2;
    stack[sp + 1] = second;
    stack[sp] = first;
    let mut at = 0;
    // A while loop: a turn that replaces a Choice stays at its place in the list.
    while at < xs.len() {
        if sp == stack.len() {
            return false;
        }
        let y = stack[sp];
        if xs[at] == y {
            sp += 1;
            at += 1;
        } else {
            if left == 0 || node_word(nodes, y as usize, 0) != 9 {
                return false;
            }
            stack[sp] = node_word(nodes, y as usize, 2);
            sp -= 1;
            stack[sp] = node_word(nodes, y as usize, 1);
            left -= 1;
        }
    }
    true
}

fn row_right(nodes: &[[u32; 8]], row: [u32; 8], choices: &[u32], stack: &mut [u32]) -> bool
    requires by_index { (y : ℕ) → Down nodes.now y y → ⊥ }
    requires row_in_bounds { (choice_length row ≡ 0 → ⊥) → choice_start row + choice_length row ≤ length choices.now }
    requires choices_in_bounds { length choices.now ≤ length stack.old }
    ensures { Told (RowRight nodes.now choices.now row) result }
{
    let start = row[5] as usize;
    let len = row[6] as usize;
    len == 0
        || list_right(
            nodes,
            row[1],
            row[2],
            row[7],
            &choices[start..start + len],
            stack,
        )
}

// `stack` has a place for each choice edge; what stands there at entry does not matter.
pub fn lists_right(nodes: &[[u32; 8]], choices: &[u32], stack: &mut [u32]) -> bool
    requires by_index { (y : ℕ) → Down nodes.now y y → ⊥ }
    requires lists_inside { ListsInside nodes.now choices.now }
    requires choices_in_bounds { length choices.now ≤ length stack.old }
    ensures { Told (ListsRight nodes.now choices.now) result }
{
    for row in nodes {
        if !row_right(nodes, *row, choices, stack) {
            return false;
        }
    }
    true
}
