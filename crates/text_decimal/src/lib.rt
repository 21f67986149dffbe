// A number as text: document 01's "Numbers are decimal, .. and fit in 64 bits".
#![tactic(auto)]

ghost use Rattle.std.specs.Prelude.{◌≡◌, ◌+◌, ◌*◌, ◌<◌, ◌≤◌, length, SomeIff};
ghost use Rattle.text_decimal.specs.Decimal.{decimal, too_large};
ghost use Rattle.text_decimal.specs.Put.{put_at};
ghost use Rattle.text_decimal.specs.Word.{first_word, number_in};

// A number that was read, and where the text goes on after it.
#[derive(Clone, Copy)]
pub struct Number {
    pub value: u64,
    pub end: usize,
}

// Where the first word of a text ends: at the next space, or with the text.
pub fn word_end(text: &[u8]) -> usize
    ensures { result ≡ length (first_word text.now) }
{
    text.iter()
        .position(|&byte| byte == b' ')
        .unwrap_or(text.len())
}

// A number with one more digit behind it, where it fits in 64 bits.
fn extended(value: u64, digit: u8) -> Option<u64>
    ensures { SomeIff result (10 * value + digit < too_large) (10 * value + digit) }
{
    value.checked_mul(10)?.checked_add(u64::from(digit))
}

// The number that stands at `from`, up to the next space or the end of the text. It looks no further than the first byte that
// rules a number out.
pub fn read(text: &[u8], from: usize) -> Option<Number>
    ensures { result ≡ number_in text.now from }
{
    let rest = text.get(from..)?;
    let mut value: u64 = 0;
    let mut end = from;
    for byte in rest {
        if *byte == b' ' {
            break;
        }
        if !byte.is_ascii_digit() {
            return None;
        }
        value = extended(value, byte - b'0')?;
        end += 1;
    }
    let empty = end == from;
    if empty {
        return None;
    }
    Some(Number { value, end })
}

// How many digits a number has.
#[tactic(auto, using(crate::proofs::Writing::digits_many, crate::proofs::Writing::digits_none))]
fn digits(n: u64) -> usize
    ensures { result ≡ length (decimal n) }
{
    match n.checked_ilog10() {
        Some(log) => log as usize + 1,
        None => 1,
    }
}

// Writes a number into `out` from `at` on: where it ends. A number has at most 20 digits.
#[tactic(auto, using(crate::proofs::Writing::written))]
pub fn write(out: &mut [u8], at: usize, n: u64) -> usize
    requires { at + 20 ≤ length out.old }
    ensures value { result ≡ at + length (decimal n) }
    ensures out_after { out.new ≡ put_at out.old at (decimal n) }
{
    let end = at + digits(n);
    let mut rest = n;
    for i in (at..end).rev() {
        out[i] = b'0' + (rest % 10) as u8;
        rest /= 10;
    }
    end
}
