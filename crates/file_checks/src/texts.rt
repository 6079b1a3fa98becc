// Refusals 7 and 8: the texts.
ghost use Rattle.std.specs.Prelude.{◌<◌, length};
ghost use Rattle.file_checks.specs.Told.{Told};
ghost use Rattle.file_checks.specs.Texts.{NoNewline, TextOk, TextsOk, SpaceOk, Inside};

use file_tables::{TextId, text_word};
use file_utf8::well_formed;

fn no_newline(text: &[u8]) -> bool
    ensures { Told (NoNewline text.now) result }
{
    !text.contains(&b'\n')
}

// Whether a text follows its own rule.
pub fn text_ok(text: &[u8]) -> bool
    ensures { Told (TextOk text.now) result }
{
    no_newline(text) && well_formed(text)
}

pub fn texts_ok(texts: &[[u32; 3]], bytes: &[u8]) -> bool
    requires { Inside texts.now bytes.now }
    ensures { Told (TextsOk texts.now bytes.now) result }
{
    for row in texts {
        let start = row[2] as usize;
        let end = start + row[1] as usize;
        if !text_ok(&bytes[start..end]) {
            return false;
        }
    }
    true
}

pub fn space_ok(texts: &[[u32; 3]], bytes: &[u8], space: TextId) -> bool
    requires inside { Inside texts.now bytes.now }
    requires space_in_bounds { space.0 < length texts.now }
    ensures { Told (SpaceOk texts.now bytes.now space.0) result }
{
    let i = space.0 as usize;
    text_word(texts, i, 0) == 1
        && text_word(texts, i, 1) == 1
        && bytes[text_word(texts, i, 2) as usize] == b' '
}
