// What is judged of every record before its body, and of the end of every file, once for tables and plans. Bytes and place stay two parameters, as
// in the definitions: the bytes are the same in a whole reading, and a place alone goes into refusals and answers.
ghost use Rattle.std.specs.Prelude.{◌≡◌, Option};
ghost use Rattle.records.specs.Records.{opened, ended_at};

use crate::kind;
use crate::kind::Allowed;
use crate::refusal::{Place, Refusal};

// A record whose body is whole: its kind, and the place of the record after it.
#[derive(Clone, Copy)]
pub struct Whole<K> {
    pub kind: K,
    pub next: Place,
}

// A record of a file that lists things: one more of them, or the end; each with the place after it.
#[derive(Clone, Copy)]
pub enum Record<T> {
    Listed(T, Place),
    Last(Place),
}

// The record at a place where these kinds may stand: no byte left SHORT; kind unknown or not allowed here KIND; body cut SHORT.
#[tactic(auto, unfolding(crate::specs::Records::judged))]
pub fn opened<K: Allowed>(s: &[u8], p: Place) -> Result<Whole<K>, Refusal>
    ensures { result ≡ opened K.only s.now p }
{
    if s.len() <= p.at {
        return Err(Refusal::Short(p));
    }
    let form = kind::form_of(s[p.at]).ok_or(Refusal::Kind(p))?;
    let kind = K::of(form.meaning).ok_or(Refusal::Kind(p))?;
    if s.len() - (p.at + 1) < form.body {
        return Err(Refusal::Short(p));
    }
    Ok(Whole {
        kind,
        next: p.past(form.body),
    })
}

// Nothing may stand after the end record.
pub fn ended_at(s: &[u8], p: Place) -> Result<(), Refusal>
    ensures { result ≡ ended_at s.now p }
{
    if s.len() <= p.at {
        Ok(())
    } else {
        Err(Refusal::After(p))
    }
}
