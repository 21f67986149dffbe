// The lines of the listing, written into a buffer from a place on. Each call says where the line ends.
#![tactic(auto)]

ghost use Rattle.std.specs.Prelude.{◌≡◌, ◌+◌, ◌*◌, ◌≤◌, ◌∷◌, length};
ghost use Rattle.text_decimal.specs.Decimal.{decimal};
ghost use Rattle.text_decimal.specs.Put.{put_at};
ghost use Rattle.script_line.specs.Phrase.{phrase};
ghost use Rattle.script_listing.specs.Listing.{line_of, send_lines_in, share, shares_to, channel_line};

use kinds::Route;

// The buffer of bytes that a listing goes through, and the last place in it from which all that a slot writes fits into it.
pub const BUFFER: usize = 65_536;

pub const LAST_FOR_SLOT: usize = 63_776;

#[tactic(auto, using(text_decimal::proofs::Laws::Put::put_part))]
fn put_text(out: &mut [u8], at: usize, text: &[u8]) -> usize
    requires { at + length text.now ≤ length out.old }
    ensures value { result ≡ at + length text.now }
    ensures out_after { out.new ≡ put_at out.old at text.now }
{
    let end = at + text.len();
    out[at..end].copy_from_slice(text);
    end
}

// A byte, and a number behind it.
#[tactic(auto, using(text_decimal::proofs::Laws::Put::put_next))]
fn put_number(out: &mut [u8], at: usize, byte: u8, n: u64) -> usize
    requires { at + 21 ≤ length out.old }
    ensures value { result ≡ at + length (byte ∷ decimal n) }
    ensures out_after { out.new ≡ put_at out.old at (byte ∷ decimal n) }
{
    out[at] = byte;
    text_decimal::write(out, at + 1, n)
}

// A word and numbers behind it.
fn put_phrase(out: &mut [u8], at: usize, word: &[u8], numbers: &[u64]) -> usize
    requires { at + length word.now + 21 * length numbers.now ≤ length out.old }
    ensures value { result ≡ at + length (phrase word.now numbers.now) }
    ensures out_after { out.new ≡ put_at out.old at (phrase word.now numbers.now) }
{
    let mut end = put_text(out, at, word);
    for &n in numbers {
        end = put_number(out, end, b' ', n);
    }
    end
}

// A line of a word and numbers. It takes at most the word's length, 21 for each number and 1.
pub fn line(out: &mut [u8], at: usize, word: &[u8], numbers: &[u64]) -> usize
    requires { at + length word.now + 21 * length numbers.now + 1 ≤ length out.old }
    ensures value { result ≡ at + length (line_of word.now numbers.now) }
    ensures out_after { out.new ≡ put_at out.old at (line_of word.now numbers.now) }
{
    let end = put_phrase(out, at, word, numbers);
    out[end] = b'\n';
    end + 1
}

// The lines of `count` sends, five numbers each. One takes at most 110 bytes.
pub fn sends(out: &mut [u8], at: usize, numbers: &[u64], count: usize) -> usize
    requires enough { 5 * count ≤ length numbers.now }
    requires room { at + 110 * count ≤ length out.old }
    ensures value { result ≡ at + length (send_lines_in numbers.now count) }
    ensures out_after { out.new ≡ put_at out.old at (send_lines_in numbers.now count) }
{
    let mut end = at;
    for i in 0..count {
        end = line(out, end, b"send", &numbers[5 * i..5 * i + 5]);
    }
    end
}

// What a channel was given on one link.
#[tactic(auto, using(text_decimal::proofs::Laws::Decimal::decimal_length))]
fn put_share(out: &mut [u8], at: usize, response: u64, delay: u64, reserved: u64) -> usize
    requires { at + 63 ≤ length out.old }
    ensures value { result ≡ at + length (share response delay reserved) }
    ensures out_after { out.new ≡ put_at out.old at (share response delay reserved) }
{
    let mut end = put_number(out, at, b' ', response);
    end = put_number(out, end, b'/', delay);
    put_number(out, end, b'/', reserved)
}

// The same for each link of its route.
fn put_shares(
    out: &mut [u8],
    at: usize,
    responses: &[u64; Route::MOST_HOPS],
    delays: &[u64; Route::MOST_HOPS],
    reserved: &[u64; Route::MOST_HOPS],
    hops: usize,
) -> usize
    requires hops_bound { hops ≤ 8 }
    requires room { at + 63 * hops ≤ length out.old }
    ensures value { result ≡ at + length (shares_to responses.now delays.now reserved.now hops) }
    ensures out_after { out.new ≡ put_at out.old at
        (shares_to responses.now delays.now reserved.now hops) }
{
    let mut end = at;
    for j in 0..hops {
        end = put_share(out, end, responses[j], delays[j], reserved[j]);
    }
    end
}

// The line of a channel that was opened, with what it was given on each link of its route. It takes at most 29 bytes and 63 for
// each link.
pub fn channel(
    out: &mut [u8],
    at: usize,
    channel: u64,
    responses: &[u64; Route::MOST_HOPS],
    delays: &[u64; Route::MOST_HOPS],
    reserved: &[u64; Route::MOST_HOPS],
    hops: usize,
) -> usize
    requires hops_bound { hops ≤ 8 }
    requires room { at + 533 ≤ length out.old }
    ensures value { result ≡ at + length
        (channel_line channel responses.now delays.now reserved.now hops) }
    ensures out_after { out.new ≡ put_at out.old at
        (channel_line channel responses.now delays.now reserved.now hops) }
{
    let place = put_phrase(out, at, b"channel", &[channel]);
    let end = put_shares(out, place, responses, delays, reserved, hops);
    out[end] = b'\n';
    end + 1
}
