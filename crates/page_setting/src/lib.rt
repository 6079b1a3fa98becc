// The setting in front of the file in the input of `page`: a map byte, and the fields whose bits stand.
#![tactic(auto)]

ghost use Rattle.std.specs.Prelude.{◌≡◌};
ghost use Rattle.page_setting.specs.Setting.{setting_at};

use file_fields::{START, Step, byte_at, field_at, formed};

// Page width, newline cost, policy, rule, and the step after them.
#[derive(Clone, Copy)]
pub struct Setting {
    pub width: u32,
    pub newline_cost: u32,
    pub policy: u32,
    pub rule: u32,
    pub next: Step,
}

pub fn setting_at(s: &[u8]) -> Setting
    ensures { result ≡ setting_at s.now }
{
    let map = formed(15, byte_at(s, START));
    let m = map.value;
    let width = field_at(s, m / 1 % 2 == 1, map);
    let newline_cost = field_at(s, m / 2 % 2 == 1, width);
    Setting {
        width: width.value,
        newline_cost: newline_cost.value,
        policy: m / 4 % 2,
        rule: m / 8 % 2 + 1,
        next: newline_cost,
    }
}
