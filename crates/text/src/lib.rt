// Numbers and lines as ASCII bytes: each `put_` puts its own into `out` from index `at` on, and answers the index after them. No Display:
// each clause says the bytes themselves (Puts), which `write!` into a lent slice does not.
#![tactic(auto)]

ghost use Rattle.std.specs.Prelude.{◌≡◌, ◌+◌, ◌-◌, ◌<◌, ◌≤◌, [], ◌∷◌, length, replicate};
ghost use Rattle.text.specs.Text.{digit_of, hex_digits, hex_of, decimal_of, right_of, line_of};
ghost use Rattle.text.specs.Puts.{Puts};

fn digit(x: u64) -> u8
    requires { x < 16 }
    ensures { result ≡ digit_of x }
{
    if x < 10 {
        b'0' + x as u8
    } else {
        b'a' + (x - 10) as u8
    }
}

fn put_byte(out: &mut [u8], at: usize, b: u8) -> usize
    requires { at < length out.old }
    ensures { Puts out.old at (b ∷ []) out.new result }
{
    out[at] = b;
    at + 1
}

fn put_hex_digits(out: &mut [u8], at: usize, k: usize, n: u64) -> usize
    requires { at + k ≤ length out.old }
    ensures { Puts out.old at (hex_digits k n) out.new result }
{
    if k == 0 {
        return at;
    }
    let last = put_hex_digits(out, at, k - 1, n / 16);
    put_byte(out, last, digit(n % 16))
}

// A word in 8 digits.
pub fn put_hex(out: &mut [u8], at: usize, n: u32) -> usize
    requires { at + 8 ≤ length out.old }
    ensures { Puts out.old at (hex_of n) out.new result }
{
    put_hex_digits(out, at, 8, n as u64)
}

pub fn put_decimal(out: &mut [u8], at: usize, n: u64) -> usize
    requires { at + length (decimal_of n) ≤ length out.old }
    ensures { Puts out.old at (decimal_of n) out.new result }
{
    if n < 10 {
        return put_byte(out, at, digit(n));
    }
    let last = put_decimal(out, at, n / 10);
    put_byte(out, last, digit(n % 10))
}

fn put_blanks(out: &mut [u8], at: usize, k: usize) -> usize
    requires { at + k ≤ length out.old }
    ensures { Puts out.old at (replicate k 32) out.new result }
{
    let end = at + k;
    out[at..end].fill(b' ');
    end
}

// In decimal with blanks in front, `width` places wide; a longer number has no blank.
pub fn put_right(out: &mut [u8], at: usize, width: usize, n: u64) -> usize
    requires { at + length (right_of width n) ≤ length out.old }
    ensures { Puts out.old at (right_of width n) out.new result }
{
    let less = width.saturating_sub(1);
    if n < 10 {
        let one = put_blanks(out, at, less);
        return put_byte(out, one, digit(n));
    }
    let last = put_right(out, at, less, n / 10);
    put_byte(out, last, digit(n % 10))
}

pub fn put_text(out: &mut [u8], at: usize, text: &[u8]) -> usize
    requires { at + length text.now ≤ length out.old }
    ensures { Puts out.old at text.now out.new result }
{
    let end = at + text.len();
    out[at..end].copy_from_slice(text);
    end
}

pub fn put_decimal_line(out: &mut [u8], at: usize, name: &[u8], n: u64) -> usize
    requires { at + length name.now + 21 ≤ length out.old }
    ensures { Puts out.old at (line_of name.now (decimal_of n)) out.new result × (result ≤ at + length name.now + 21) }
{
    let value = put_text(out, at, name);
    let end = put_decimal(out, value, n);
    put_byte(out, end, b'\n')
}

pub fn put_hex_line(out: &mut [u8], at: usize, name: &[u8], n: u32) -> usize
    requires { at + length name.now + 9 ≤ length out.old }
    ensures { Puts out.old at (line_of name.now (hex_of n)) out.new result × (result ≤ at + length name.now + 9) }
{
    let value = put_text(out, at, name);
    let end = put_hex(out, value, n);
    put_byte(out, end, b'\n')
}
