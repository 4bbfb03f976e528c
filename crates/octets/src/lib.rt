// Words and numbers written into an area that the caller lends, at a place of it, and numbers of two and four bytes read from a place.
// What is written is told by `Wrote` of specs/Writing.antt, and the rest of the area is left. Area and place stay two parameters: a cursor that borrows
// the area would have to tell of both parts what `Wrote` tells, at every call.
#![tactic(auto)]

ghost use Rattle.std.specs.Prelude.{◌≡◌, ◌+◌, ◌<◌, ◌≤◌, length};
ghost use Rattle.octets.specs.Writing.{Wrote};
ghost use Rattle.octets.specs.Decimals.{decimal};
ghost use Rattle.octets.specs.Numbers.{two_bytes, two_at, four_bytes, four_at};
ghost use Rattle.octets.specs.Hex.{hex_digit, hex_of};

// Writes `word` at a place of `out`, and returns the place after it.
pub fn put(out: &mut [u8], at: usize, word: &[u8]) -> usize
    requires { at + length word.now ≤ length out.old }
    ensures { Wrote out.old at word.now out.new result }
{
    let end = at + word.len();
    out[at..end].copy_from_slice(word);
    end
}

// Writes `n` in decimal at a place of `out`, without leading zeros, and returns the place after it. By hand: no formatter says which bytes it leaves
// at a place of a lent area.
pub fn put_number(out: &mut [u8], at: usize, n: usize) -> usize
    requires { at + length (decimal n) ≤ length out.old }
    ensures { Wrote out.old at (decimal n) out.new result }
{
    if n < 10 {
        out[at] = (48 + n) as u8;
        return at + 1;
    }
    let end = put_number(out, at, n / 10);
    out[end] = (48 + n % 10) as u8;
    end + 1
}

// The two-byte number at a place, low byte first. Two widths, two functions: each is one call of the width's own conversion.
pub fn two_at(s: &[u8], at: usize) -> u16
    requires { at + 2 ≤ length s.now }
    ensures { result ≡ two_at s.now at }
{
    u16::from_le_bytes([s[at], s[at + 1]])
}

// The four-byte number at a place, low byte first.
pub fn four_at(s: &[u8], at: usize) -> u32
    requires { at + 4 ≤ length s.now }
    ensures { result ≡ four_at s.now at }
{
    u32::from_le_bytes([s[at], s[at + 1], s[at + 2], s[at + 3]])
}

// Writes the two bytes of `n` at a place of `out`, low byte first, and returns the place after them.
pub fn put_two(out: &mut [u8], at: usize, n: u16) -> usize
    requires { at + 2 ≤ length out.old }
    ensures { Wrote out.old at (two_bytes n) out.new result }
{
    put(out, at, &u16::to_le_bytes(n))
}

// Writes the four bytes of `n` at a place of `out`, low byte first, and returns the place after them.
pub fn put_four(out: &mut [u8], at: usize, n: u32) -> usize
    requires { at + 4 ≤ length out.old }
    ensures { Wrote out.old at (four_bytes n) out.new result }
{
    put(out, at, &u32::to_le_bytes(n))
}

fn hex_digit(d: u32) -> u8
    requires { d < 16 }
    ensures { result ≡ hex_digit d }
{
    if d < 10 {
        return (48 + d) as u8;
    }
    (87 + d) as u8
}

// Writes `n` as eight hexadecimal digits at a place of `out`, by hand as a decimal, and returns the place after them. The last digit is written first.
pub fn put_hex(out: &mut [u8], at: usize, n: u32) -> usize
    requires { at + 8 ≤ length out.old }
    ensures { Wrote out.old at (hex_of n) out.new result }
{
    let mut left = n;
    for i in (0..8).rev() {
        out[at + i] = hex_digit(left % 16);
        left /= 16;
    }
    at + 8
}
