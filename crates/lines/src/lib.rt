// What every line of text is made of: a word with a number behind it, two of them on a line, and the line of a refusal.
// The lister, the replay and what comes after them write these into a lent area, at a place of it (`Wrote` of crate octets): no formatter says which
// bytes it leaves there.
#![tactic(auto)]

ghost use Rattle.std.specs.Prelude.{◌++◌, ◌+◌, ◌≤◌, length};
ghost use Rattle.records.specs.Refusals.{refusal_says};
ghost use Rattle.octets.specs.Decimals.{decimal};
ghost use Rattle.octets.specs.Writing.{Wrote};
ghost use Rattle.lines.specs.Lines.{pair_line, refused_text, refused_room};

use records::refusal;
use records::refusal::Refusal;

// Writes a word and a number behind it, and returns the place after them.
pub fn put_field(out: &mut [u8], at: usize, word: &[u8], n: usize) -> usize
    requires { at + length (word.now ++ decimal n) ≤ length out.old }
    ensures { Wrote out.old at (word.now ++ decimal n) out.new result }
{
    let end = octets::put(out, at, word);
    octets::put_number(out, end, n)
}

// Writes a line of two numbers, each behind its word, and returns the place after it.
pub fn put_pair(out: &mut [u8], at: usize, first: &[u8], a: usize, second: &[u8], b: usize) -> usize
    requires { at + length (pair_line first.now a second.now b) ≤ length out.old }
    ensures { Wrote out.old at (pair_line first.now a second.now b) out.new result }
{
    let middle = put_field(out, at, first, a);
    let end = put_field(out, middle, second, b);
    octets::put(out, end, b"\n")
}

// Writes the line of a refusal, its number and its place if it has one, and returns the place after it. Asks for room for every such line.
pub fn put_refused(out: &mut [u8], at: usize, f: Refusal) -> usize
    requires { at + refused_room ≤ length out.old }
    ensures { Wrote out.old at (refused_text (refusal_says f)) out.new result }
{
    let said = refusal::numbers_of(f);
    match said.place {
        Some(place) => put_pair(out, at, b"refused ", said.number, b" at ", place),
        None => {
            let end = put_field(out, at, b"refused ", said.number);
            octets::put(out, end, b"\n")
        }
    }
}
