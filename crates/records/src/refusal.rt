// What is refused, by document 01's numbers (specs/Refusals.antt), and the place that refusals 1 to 6 name.
ghost use Rattle.std.specs.Prelude.{◌≡◌, ◌+◌, ◌<◌, ◌^◌};
ghost use Rattle.records.specs.Refusals.{start, past, refusal_says, said_by};

// Where in the bytes a record stands: the offset of its kind byte. The readers go from place to place by the two functions here, which alone make one.
#[derive(Clone, Copy, Debug, PartialEq, Eq)]
pub struct Place {
    pub at: usize,
}

impl Place {
    // The place of a file's first record.
    pub fn start() -> Place
        ensures { result ≡ start }
    {
        Place { at: 0 }
    }

    // The place of the record after this one, whose body has this length.
    pub fn past(self, body: usize) -> Place
        requires { self.at + 1 + body < 2 ^ 64 }
        ensures { result ≡ past self body }
    {
        Place {
            at: self.at + 1 + body,
        }
    }
}

// In the order of document 01's table, numbers 1 to 18.
#[derive(Clone, Copy, Debug, PartialEq, Eq)]
pub enum Refusal {
    Short(Place),
    Kind(Place),
    Range(Place),
    Many(Place),
    Twice(Place),
    After(Place),
    None,
    Stranger,
    Kept,
    Left,
    Late,
    Phase,
    Number,
    Clock,
    Who,
    Value,
    Early,
    Room,
}

// What a refusal says to the caller, in plain numbers: its own and, if it is placed, that of its place.
#[derive(Clone, Copy, Debug, PartialEq, Eq)]
pub struct Said {
    pub number: usize,
    pub place: Option<usize>,
}

// The numbers, stated once for every program that prints or returns them: the document's table in full, and not the order of the cases.
pub fn numbers_of(f: Refusal) -> Said
    ensures { result ≡ said_by (refusal_says f) }
{
    let (number, place) = match f {
        Refusal::Short(p) => (1, Some(p.at)),
        Refusal::Kind(p) => (2, Some(p.at)),
        Refusal::Range(p) => (3, Some(p.at)),
        Refusal::Many(p) => (4, Some(p.at)),
        Refusal::Twice(p) => (5, Some(p.at)),
        Refusal::After(p) => (6, Some(p.at)),
        Refusal::None => (7, None),
        Refusal::Stranger => (8, None),
        Refusal::Kept => (9, None),
        Refusal::Left => (10, None),
        Refusal::Late => (11, None),
        Refusal::Phase => (12, None),
        Refusal::Number => (13, None),
        Refusal::Clock => (14, None),
        Refusal::Who => (15, None),
        Refusal::Value => (16, None),
        Refusal::Early => (17, None),
        Refusal::Room => (18, None),
    };
    Said { number, place }
}
