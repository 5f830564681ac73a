//! Lines and columns.
ghost use Rattle.std.specs.Prelude.{◌≡◌, ◌==◌, ◌≤◌, ◌<◌, ◌^◌, length};
ghost use Rattle.std.specs.List.{suffix_len};
ghost use Rattle.job_tokens.specs.Places.{is_no_newline, line_of, column_of};

/// A place in a text, from 1; the column counts bytes.
#[derive(Clone, Copy)]
pub struct Place {
    pub line: u32,
    pub column: u32,
}

fn is_newline(byte: u8) -> bool
    ensures { result ≡ (byte == 10) }
{
    byte == b'\n'
}

// How many bytes stand behind the last newline.
fn behind_newline(before: &[u8]) -> usize
    ensures count { result ≡ suffix_len is_no_newline before.now }
    ensures within { result ≤ length before.now }
{
    let mut behind = 0;
    for byte in before {
        behind = if is_newline(*byte) { 0 } else { behind + 1 };
    }
    behind
}

/// The place of the byte `at`, or of the end of the text. Takes no memory.
pub fn place_of(text: &[u8], at: usize) -> Place
    requires within { at ≤ length text.now }
    requires small { length text.now < 2 ^ 31 }
    ensures line { result.line ≡ line_of text.now at }
    ensures column { result.column ≡ column_of text.now at }
{
    let before = &text[..at];
    let newlines = before.iter().filter(|byte| is_newline(**byte)).count();
    let behind = behind_newline(before);
    Place {
        line: newlines as u32 + 1,
        column: behind as u32 + 1,
    }
}
