// A live report's head in words.
ghost use Rattle.std.specs.Prelude.{◌≡◌};
ghost use Rattle.call_words.specs.Heads.{head_at, head_words, opened_number, opened_words};

use report_gate::Head;

pub fn head_of(w: [u32; 5]) -> Head
    ensures { result ≡ head_at w }
{
    Head {
        rows: w[0],
        width: w[1],
        newline_cost: w[2],
        policy: w[3],
        rule: w[4],
    }
}

pub fn head_words(h: Head) -> [u32; 5]
    ensures { result ≡ head_words h }
{
    [h.rows, h.width, h.newline_cost, h.policy, h.rule]
}

// The number is what C gets.
pub fn opened_number(o: Result<Head, u32>) -> u32
    ensures { result ≡ opened_number o }
{
    match o {
        Ok(_) => 0,
        Err(number) => number,
    }
}

pub fn opened_words(o: Result<Head, u32>, was: [u32; 5]) -> [u32; 5]
    ensures { result ≡ opened_words o was }
{
    match o {
        Ok(h) => head_words(h),
        Err(_) => was,
    }
}
