//! Rows of 64-bit words as one list of bits: bit 0 of word 0 is the first.
ghost use Rattle.std.specs.Prelude.{◌≡◌, ◌≤◌, ◌<◌, ◌+◌, ◌*◌, ◌/◌, ◌%◌, ◌^◌, ◌++◌, length};
ghost use Rattle.scan_bits.specs.Words.{bits_of, number_of};
ghost use Rattle.scan_bits.specs.Rows.{bits_of_row, window, written};

/// The bits of a word from `low` on, so many of them, as the lowest bits of the answer.
fn part_of(word: u64, low: u32, count: u32) -> u64
    requires some { 1 ≤ count }
    requires within { low + count ≤ 64 }
    ensures { result ≡ word / 2 ^ low % 2 ^ count }
{
    (word >> low) & (u64::MAX >> (64 - count))
}

/// The word with the lowest bits of `value` in place of as many from `low` on.
fn with_part(word: u64, low: u32, count: u32, value: u64) -> u64
    requires some { 1 ≤ count }
    requires within { low + count ≤ 64 }
    ensures { result ≡ (word / 2 ^ (low + count) * 2 ^ count + value % 2 ^ count) * 2 ^ low + word % 2 ^ low }
{
    let mask = u64::MAX >> (64 - count);
    (word & !(mask << low)) | ((value & mask) << low)
}

/// The `count` bits of a row from the place `at` on, the first of them as the lowest bit of the answer.
pub fn row_word(words: &[u64], at: usize, count: u32) -> u64
    requires word { count ≤ 64 }
    requires within { at + count ≤ 64 * length words.now }
    ensures bits { result ≡ number_of (window (bits_of_row 64 words.now) at count) }
    ensures bound { result < 2 ^ count }
{
    if count == 0 {
        return 0;
    }
    let from = at / 64;
    let low = (at % 64) as u32;
    let here = 64 - low;
    if count <= here {
        return part_of(words[from], low, count);
    }
    part_of(words[from], low, here) | (part_of(words[from + 1], 0, count - here) << here)
}

/// Writes the lowest `count` bits of `value` over those of a row from the place `at` on; all others stay.
pub fn put_row_word(words: &mut [u64], at: usize, count: u32, value: u64)
    requires word { count ≤ 64 }
    requires within { at + count ≤ 64 * length words.old }
    ensures length { length words.new ≡ length words.old }
    ensures bits { bits_of_row 64 words.new ≡ written (bits_of_row 64 words.old) at (bits_of count value) }
{
    if count == 0 {
        return;
    }
    let from = at / 64;
    let low = (at % 64) as u32;
    let here = 64 - low;
    if count <= here {
        words[from] = with_part(words[from], low, count, value);
        return;
    }
    words[from] = with_part(words[from], low, here, value);
    words[from + 1] = with_part(words[from + 1], 0, count - here, value >> here);
}

/// Copies the words that hold the `count` bits from `start` on to the front of another row. The answer is where they start there.
pub fn copy_bits(words: &mut [u64], from: &[u64], start: usize, count: usize) -> usize
    requires within { start + count ≤ 64 * length from.now }
    requires small { 64 * length from.now < 2 ^ 63 }
    requires room { count + 128 ≤ 64 * length words.old }
    ensures length { length words.new ≡ length words.old }
    ensures place { result < 64 }
    ensures bits { window (bits_of_row 64 words.new) result count ≡ window (bits_of_row 64 from.now) start count }
{
    let first = start / 64;
    let end = (start + count + 63) / 64;
    words[..end - first].copy_from_slice(&from[first..end]);
    start % 64
}

/// Makes sure that a word of bits has its place behind the `count` bits from `start` on: where the row ends
/// before that, the words that hold them are moved to its front. The answer is where the bits start.
fn with_space(words: &mut [u64], start: usize, count: usize) -> usize
    requires within { start + count ≤ 64 * length words.old }
    requires small { 64 * length words.old < 2 ^ 63 }
    requires room { count + 128 ≤ 64 * length words.old }
    ensures length { length words.new ≡ length words.old }
    ensures space { result + count + 64 ≤ 64 * length words.old }
    ensures bits { window (bits_of_row 64 words.new) result count ≡ window (bits_of_row 64 words.old) start count }
{
    if start + count + 64 <= 64 * words.len() {
        return start;
    }
    let first = start / 64;
    let end = (start + count + 63) / 64;
    words.copy_within(first..end, 0);
    start % 64
}

/// Writes the lowest `more` bits of `value` behind the `count` bits from `start` on. The answer is where the bits start.
pub fn append_bits(words: &mut [u64], start: usize, count: usize, more: u32, value: u64) -> usize
    requires word { more ≤ 64 }
    requires within { start + count ≤ 64 * length words.old }
    requires small { 64 * length words.old < 2 ^ 63 }
    requires room { count + 128 ≤ 64 * length words.old }
    ensures length { length words.new ≡ length words.old }
    ensures within { result + count + more ≤ 64 * length words.old }
    ensures bits { window (bits_of_row 64 words.new) result (count + more) ≡ window (bits_of_row 64 words.old) start count ++ bits_of more value }
{
    let start = with_space(words, start, count);
    put_row_word(words, start + count, more, value);
    start
}
