// A line of a script: its first word says what is asked, the numbers behind it are the arguments.
#![tactic(auto)]

ghost use Rattle.std.specs.Prelude.{◌≡◌, length, ◌≤◌};
ghost use Rattle.text_decimal.specs.Put.{put_at};
ghost use Rattle.text_decimal.specs.Word.{first_word};
ghost use Rattle.script_line.specs.Line.{words, behind, leading, asked, same, most_bytes, most_numbers};
ghost use Rattle.script_line.specs.Line.{read_line, numbers_of, is_link};
ghost use Rattle.script_line.specs.Count.{count_of};

// What a line asks. Its numbers are lent beside it; `Open` says how many links its route has.
#[derive(Clone, Copy)]
pub enum Line {
    Bad,
    Link,
    Open(usize),
    Offer,
    Tick,
}

// A line has at most so many bytes, and a buffer for its numbers so many places: each number takes at least two bytes.
const MOST_BYTES: usize = 255;

pub const MOST_NUMBERS: usize = 128;

// Whether a line's first word is `word`.
#[tactic(auto, using(text_decimal::proofs::Laws::Word::word_front, crate::proofs::Laws::Same::same_pointwise))]
fn begins(line: &[u8], word: &[u8]) -> bool
    ensures { result ≡ same (first_word line.now) word.now }
{
    let end = text_decimal::word_end(line);
    &line[..end] == word
}

pub fn is_link(line: &[u8]) -> bool
    ensures { result ≡ is_link line.now }
{
    begins(line, b"link")
}

// What is asked by a line with so many numbers.
#[tactic(auto, using(crate::proofs::Asking::found))]
fn asked(line: &[u8], count: usize) -> Line
    ensures { result ≡ asked (first_word line.now) count }
{
    if begins(line, b"link") {
        if count == 4 { Line::Link } else { Line::Bad }
    } else if begins(line, b"open") {
        if count >= 4 {
            Line::Open(count - 4)
        } else {
            Line::Bad
        }
    } else if begins(line, b"offer") {
        if count == 2 { Line::Offer } else { Line::Bad }
    } else if begins(line, b"tick") && count == 1 {
        Line::Tick
    } else {
        Line::Bad
    }
}

// The numbers behind the first word: how many they are, unless a word there is no number. They are written up to that word.
fn read_numbers(line: &[u8], numbers: &mut [u64]) -> Option<usize>
    requires line_len_bound { length line.now ≤ most_bytes }
    requires most_numbers_in_bounds { most_numbers ≤ length numbers.old }
    ensures value { result ≡ count_of (behind (words line.now)) }
    ensures numbers_after { numbers.new ≡ put_at numbers.old 0 (leading (behind (words line.now))) }
{
    let mut count: usize = 0;
    let mut end = text_decimal::word_end(line);
    // no `for` over the places of `numbers`: the line ends before they do, and that would have to be said
    while end < line.len() {
        let number = text_decimal::read(line, end + 1)?;
        numbers[count] = number.value;
        count += 1;
        end = number.end;
    }
    Some(count)
}

// What a line asks, and its numbers at the front of `numbers`, as far as they read.
#[tactic(auto, using(crate::proofs::Whole::whole))]
pub fn read(line: &[u8], numbers: &mut [u64; MOST_NUMBERS]) -> Line
    ensures value { result ≡ read_line line.now }
    ensures numbers_after { numbers.new ≡ put_at numbers.old 0 (numbers_of line.now) }
{
    if line.len() > MOST_BYTES {
        return Line::Bad;
    }
    match read_numbers(line, numbers) {
        Some(count) => asked(line, count),
        None => Line::Bad,
    }
}
