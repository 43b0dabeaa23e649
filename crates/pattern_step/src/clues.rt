// What a queue is asked for.
ghost use Rattle.std.specs.Prelude.{◌≡◌, [], ◌∷◌, ◌++◌, ◌≤◌, min};
ghost use Rattle.std.proofs.Math.Option.{some};
ghost use Rattle.pattern_theory.specs.Within.{covers, subsequence, clue_within};
ghost use Rattle.pattern_theory.specs.Predecessors.{can_empty, without_end, before_write, waiting, in_front};
ghost use Rattle.pattern_reading.specs.Records.{asked};
ghost use Rattle.pattern_step.specs.Meaning.{word_of, clue_of, count_of, end_of, ClueGiven, ClueFor};

// A word of values, 255 for any. There is room for one value more than a pattern of a file has.
#[derive(Clone, Copy)]
pub struct Word {
    pub count: u8,
    pub values: [u8; 9],
}

#[derive(Clone, Copy)]
pub enum Clue {
    // The queue contains the word.
    Contains(Word),
    // It has the word, and then `last` as its newest value.
    Ends { word: Word, last: u8 },
    // It is empty.
    Empty,
}

// Does x of one word go to y of another?
pub(crate) fn goes_to(x: u8, y: u8) -> bool
    ensures { (result ≡ covers (asked x) (asked y)) × (result ≡ covers (asked x) (some y)) }
{
    x == 255 || x == y
}

// Is the word of b a subsequence of that of a, or, with an end, of that and then the end?
fn word_within(a: Word, end: Option<u8>, b: Word) -> bool
    ensures { result ≡ subsequence covers (word_of b) (word_of a ++ end_of end) }
{
    let n = a.len();
    let m = b.len();
    let mut i = 0;
    for j in 0..n {
        if m <= i {
            return true;
        }
        if goes_to(b.values[i], a.values[j]) {
            i += 1;
        }
    }
    if m <= i {
        return true;
    }
    let Some(last) = end else {
        return false;
    };
    i + 1 == m && goes_to(b.values[i], last)
}

impl Word {
    pub(crate) fn new() -> Word
        ensures { (word_of result ≡ []) × (result.count ≡ 0) }
    {
        Word {
            count: 0,
            values: [0; 9],
        }
    }

    fn len(self) -> usize
        ensures { result ≡ min self.count 9 }
    {
        usize::from(self.count).min(9)
    }

    // Without its last value, if that is v or any.
    fn without_end(self, v: u8) -> Word
        ensures { self.count ≤ 9 → (word_of result ≡ without_end v (word_of self)) × (result.count ≤ self.count) }
    {
        let n = self.len();
        if n == 0 {
            return self;
        }
        if goes_to(self.values[n - 1], v) {
            Word {
                count: self.count - 1,
                ..self
            }
        } else {
            self
        }
    }

    // With one value more, the oldest.
    fn with_front(self, u: u8) -> Word
        ensures { self.count ≤ 8 → (word_of result ≡ asked u ∷ word_of self) × (result.count ≤ 9) }
    {
        if 9 <= self.count {
            return self;
        }
        let mut values = self.values;
        values.copy_within(0..8, 1);
        values[0] = u;
        Word {
            count: self.count + 1,
            values,
        }
    }
}

impl Clue {
    pub(crate) fn within(self, other: Clue) -> bool
        ensures { result ≡ clue_within (clue_of self) (clue_of other) }
    {
        match (self, other) {
            (Clue::Empty, _) => other.can_empty(),
            (Clue::Contains(a), Clue::Contains(b)) => word_within(a, None, b),
            (Clue::Ends { word, last }, Clue::Contains(b)) => word_within(word, Some(last), b),
            (
                Clue::Ends { word, last },
                Clue::Ends {
                    word: asked,
                    last: end,
                },
            ) => last == end && word_within(word, None, asked),
            _ => false,
        }
    }

    pub(crate) fn can_empty(self) -> bool
        ensures { result ≡ can_empty (clue_of self) }
    {
        match self {
            Clue::Contains(word) => word.count == 0,
            Clue::Ends { .. } => false,
            Clue::Empty => true,
        }
    }

    // ---- before a step

    pub(crate) fn before_write(self, v: u8) -> Option<Clue>
        ensures { count_of self ≤ 9 → ClueGiven result (before_write v (clue_of self)) (count_of self) }
    {
        match self {
            Clue::Contains(word) => Some(Clue::Contains(word.without_end(v))),
            Clue::Ends { word, last } => (last == v).then_some(Clue::Contains(word)),
            Clue::Empty => None,
        }
    }

    // The clue where v is the newest waiting value.
    pub(crate) fn waiting(self, v: u8) -> Option<Clue>
        ensures { count_of self ≤ 9 → ClueGiven result (waiting v (clue_of self)) (count_of self) }
    {
        match self {
            Clue::Contains(word) => Some(Clue::Ends {
                word: word.without_end(v),
                last: v,
            }),
            Clue::Ends { last, .. } => (last == v).then_some(self),
            Clue::Empty => None,
        }
    }

    // With u, or any value, in front of the word.
    pub(crate) fn in_front(self, u: u8) -> Clue
        ensures { count_of self ≤ 8 → ClueFor result (in_front (asked u) (clue_of self)) 9 }
    {
        match self {
            Clue::Contains(word) => Clue::Contains(word.with_front(u)),
            Clue::Ends { word, last } => Clue::Ends {
                word: word.with_front(u),
                last,
            },
            Clue::Empty => {
                if u == 255 {
                    Clue::Contains(Word::new().with_front(u))
                } else {
                    Clue::Ends {
                        word: Word::new(),
                        last: u,
                    }
                }
            }
        }
    }
}
