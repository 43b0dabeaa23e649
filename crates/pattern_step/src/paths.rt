// What a process can still read, and what is asked of the newest message.
ghost use Rattle.std.specs.Prelude.{◌≡◌, [], ◌∷◌, ◌+◌, ◌≤◌, ◌<◌, min, get_or, drop, take, length as listLength};
ghost use Rattle.pattern_theory.specs.Within.{same_read, asked, path_within};
ghost use Rattle.pattern_theory.specs.Predecessors.{joined, first_own};
ghost use Rattle.list_theory.specs.Lists.{every};
ghost use Rattle.pattern_step.specs.Meaning.{given, read_of, path_of, newest_of, FineRead, FineReads, place_of, starts_at, not_own, Inserted};

use base::arrays::{at_or, with_at};

// A read of a variable's value; own: from a message of the process's own that lies ahead of its pointer.
#[derive(Clone, Copy)]
pub struct Read {
    pub variable: u8,
    pub value: u8,
    pub own: bool,
}

// A path: there is room for one read more than a pattern of a file has.
#[derive(Clone, Copy)]
pub struct PathReads {
    pub reads: [Read; 17],
    pub count: u8,
}

// What is asked of a variable of the newest message; 255 if nothing is.
pub(crate) fn newest_of(newest: [u8; 4], v: u8) -> u8
    ensures { result ≡ get_or newest v 255 }
{
    at_or(newest, usize::from(v), 255)
}

fn same_read(r: Read, s: Read) -> bool
    ensures { result ≡ same_read (read_of r) (read_of s) }
{
    r.variable == s.variable && r.value == s.value && (!r.own || s.own)
}

fn is_asked(newest: [u8; 4], r: Read) -> bool
    ensures { result ≡ asked (newest_of newest) (read_of r) }
{
    let u = newest_of(newest, r.variable);
    !r.own && u != 255 && u == r.value
}

// What is asked of the newest message once the read is, if it can be.
fn join_read(newest: [u8; 4], r: Read) -> Option<[u8; 4]>
    ensures { FineRead r → given newest_of result ≡ joined (newest_of newest) (read_of r ∷ []) }
{
    if r.own {
        return None;
    }
    let u = newest_of(newest, r.variable);
    if u == 255 || u == r.value {
        Some(with_at(newest, usize::from(r.variable), r.value))
    } else {
        None
    }
}

impl PathReads {
    pub(crate) fn new() -> PathReads
        ensures { result.count ≡ 0 }
    {
        let read = Read {
            variable: 0,
            value: 0,
            own: false,
        };
        PathReads {
            reads: [read; 17],
            count: 0,
        }
    }

    pub(crate) fn len(self) -> usize
        ensures count { result ≡ min self.count 17 }
        ensures reads { result ≡ listLength (path_of self) }
    {
        usize::from(self.count).min(17)
    }

    // Is each read from this place on asked of the newest message?
    fn rest_asked(self, newest: [u8; 4], from: usize) -> bool
        ensures { result ≡ every (asked (newest_of newest)) (drop from (path_of self)) }
    {
        for i in from..self.len() {
            if !is_asked(newest, self.reads[i]) {
                return false;
            }
        }
        true
    }

    // Is it, with what is asked of the newest message, within the other path?
    pub(crate) fn within(self, newest: [u8; 4], other: PathReads) -> bool
        ensures { result ≡ path_within (newest_of newest) (path_of self) (path_of other) }
    {
        let n = self.len();
        let m = other.len();
        let mut i = 0;
        for j in 0..n {
            if m <= i {
                return true;
            }
            if same_read(other.reads[i], self.reads[j]) {
                i += 1;
            }
        }
        other.rest_asked(newest, i)
    }

    // The reads from this place on asked of the newest message, if they can be.
    pub(crate) fn joined(self, newest: [u8; 4], from: usize) -> Option<[u8; 4]>
        ensures { FineReads self → given newest_of result ≡ joined (newest_of newest) (drop from (path_of self)) }
    {
        let mut next = newest;
        for i in from..self.len() {
            next = join_read(next, self.reads[i])?;
        }
        Some(next)
    }

    // ---- places

    // The place of the first read of x; past the last if there is none.
    pub(crate) fn place_of(self, x: u8) -> usize
        ensures place { result ≡ place_of x (path_of self) }
        ensures most { result ≤ 17 }
    {
        let n = self.len();
        for i in 0..n {
            if self.reads[i].variable == x {
                return i;
            }
        }
        n
    }

    // The value of the first own read of x.
    pub(crate) fn first_own(self, x: u8) -> Option<u8>
        ensures { given (λ v. v) result ≡ first_own x (path_of self) }
    {
        for i in 0..self.len() {
            let r = self.reads[i];
            if r.own && r.variable == x {
                return Some(r.value);
            }
        }
        None
    }

    // May an end of the path begin here, at a new message of x?
    pub(crate) fn starts_at(self, x: u8, at: usize) -> bool
        ensures { result ≡ starts_at x (path_of self) at }
    {
        self.len() <= at || self.reads[at].variable == x
    }

    // ---- a path changed

    // The first reads alone.
    pub(crate) fn cut(self, at: usize) -> PathReads
        ensures { (path_of result ≡ take at (path_of self)) × (result.count ≤ self.count) × (FineReads self → FineReads result) }
    {
        if self.len() <= at {
            return self;
        }
        PathReads {
            count: at as u8,
            ..self
        }
    }

    // The read here counts as not own.
    pub(crate) fn not_own(mut self, at: usize) -> PathReads
        ensures { (path_of result ≡ not_own at (path_of self)) × (result.count ≡ self.count) × (FineReads self → FineReads result) }
    {
        if at < self.len() {
            self.reads[at].own = false;
        }
        self
    }

    // With a read put in behind the first ones.
    pub(crate) fn put_in(self, at: usize, read: Read) -> PathReads
        ensures { self.count ≤ 16 → at ≤ self.count → Inserted result self at read }
    {
        let n = usize::from(self.count);
        if 16 < n || n < at {
            return self;
        }
        let mut reads = self.reads;
        reads.copy_within(at..n, at + 1);
        reads[at] = read;
        PathReads {
            reads,
            count: self.count + 1,
        }
    }
}
