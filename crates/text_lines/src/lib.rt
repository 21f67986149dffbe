// The lines of a script that comes in chunks.
#![tactic(auto)]

ghost use Rattle.std.specs.Prelude.{◌≡◌, ◌≤◌, length, drop};
ghost use Rattle.text_decimal.specs.Put.{put_at};
ghost use Rattle.text_lines.specs.Lines.{ahead, most_kept};
ghost use Rattle.text_lines.specs.Gathered.{gathered, fitting};

// Where the chunk goes on, how many bytes of the line are kept, and whether its line feed was there.
#[derive(Clone, Copy)]
pub struct Gathered {
    pub at: usize,
    pub length: usize,
    pub whole: bool,
}

// So many bytes of a line are kept.
pub const KEPT: usize = 256;

// Puts the chunk's bytes from `from` on, up to the next line feed or the end, behind the `before` bytes of the line that came
// before.
pub fn gather(chunk: &[u8], from: usize, line: &mut [u8], before: usize) -> Gathered
    requires line_len { length line.old ≡ most_kept }
    requires before_le_most_kept { before ≤ most_kept }
    requires from_in_bounds { from ≤ length chunk.now }
    ensures value { result ≡ gathered (drop from chunk.now) from before }
    ensures line_after { line.new
        ≡ put_at line.old before (fitting before (ahead (drop from chunk.now))) }
{
    let rest = &chunk[from..];
    let feed = rest.iter().position(|&byte| byte == b'\n');
    let ahead = &rest[..feed.unwrap_or(rest.len())];
    let kept = ahead.len().min(KEPT - before);
    let end = before + kept;
    line[before..end].copy_from_slice(&ahead[..kept]);
    let whole = feed.is_some();
    Gathered {
        at: from + ahead.len() + usize::from(whole),
        length: end,
        whole,
    }
}
