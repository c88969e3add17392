// The place of a row among the admissible rows of a width, and the row at a place.
ghost use Rattle.std.specs.Prelude.{◌≡◌, ◌^◌, ◌<◌, ◌≤◌, true, Ok, Err, IfOk, IfErr};
ghost use Rattle.rows.specs.Rows.{admissible};
ghost use Rattle.bit_places.specs.Places.{second, third, size, base, digit, place, relation_at, row_of};
ghost use Rattle.bit_places.specs.Kinds.{past, threes};
ghost use Rattle.bit_places.specs.Opened.{check_answer, each_limit, words_for};

use rows::answer::OpenFault;
use rows::relation::{
    LOAN_ISSUED_AT, ORIGIN_CONTAINS_LOAN_ON_ENTRY, RELATIONS, SUBSET, SUBSET_BASE, SUBSET_ERRORS,
    UNIVERSAL_REGION, places,
};
use rows::row::Row;
use std::array;

const LAST: u32 = RELATIONS - 1;

// No bit table is wider than this.
const WIDEST: u32 = 32;

// How a bit table of a width lays out the rows: each admissible row has one place, and they lie ascending.
#[derive(Clone, Copy)]
pub struct Layout {
    width: usize,
    ghost narrow: { width ≤ 32 },
}

impl Layout {
    pub const NARROWEST: Layout = Layout { width: 1 };

    // The layout of a width, if so many words hold its places.
    pub fn over(len: usize, width: u32) -> Result<Layout, OpenFault>
        ensures opened { IfOk result (λ l. (l.width ≡ width) × (words_for l.width ≤ len) × (Ok tt ≡ check_answer len width)) }
        ensures refused { IfErr result (λ e. Err e ≡ check_answer len width) }
    {
        if width < 1 || width > WIDEST {
            return Err(OpenFault::Width);
        }
        let layout = Layout {
            width: width as usize,
        };
        if len < layout.words() {
            return Err(OpenFault::Words);
        }
        Ok(layout)
    }

    pub fn width(self) -> u32
        ensures { result ≡ self.width }
    {
        self.width as u32
    }

    // How many second codes the rows of a relation have: 1 where that place is unused.
    fn second(self, relation: u32) -> usize
        ensures is { result ≡ second self.width relation }
        ensures most { result ≤ 32 }
    {
        if places(relation) == 1 { 1 } else { self.width }
    }

    // How many third codes.
    fn third(self, relation: u32) -> usize
        ensures is { result ≡ third self.width relation }
        ensures most { result ≤ 32 }
    {
        if places(relation) == 3 { self.width } else { 1 }
    }

    // How many rows a relation has.
    fn size(self, relation: u32) -> usize
        ensures is { result ≡ size self.width relation }
        ensures most { result ≤ 32768 }
    {
        self.width * (self.second(relation) * self.third(relation))
    }

    // How many rows the relations below one have: those with one place have a row for each code, those with two a row
    // for each pair of codes, and those with three a row for each triple.
    pub fn base(self, relation: u32) -> usize
        requires { relation ≤ 40 }
        ensures is { result ≡ base self.width relation }
        ensures most { result ≤ 1310720 }
    {
        let ones = past(UNIVERSAL_REGION, relation);
        let threes = threes(relation);
        let twos = relation as usize - ones - threes;
        self.width * (ones + self.width * (twos + self.width * threes))
    }

    // How many words have a bit for each place.
    pub fn words(self) -> usize
        ensures { result ≡ words_for self.width }
    {
        self.base(RELATIONS).div_ceil(64)
    }

    // How many rows each relation has.
    pub fn each(self) -> [u32; 40]
        ensures { result ≡ each_limit true self.width }
    {
        array::from_fn(|k| self.size(k as u32) as u32)
    }

    pub fn admits(self, r: &Row) -> bool
        ensures { result ≡ admissible self.width r.now }
    {
        r.admissible(self.width())
    }

    // How many admissible rows come before a row.
    pub fn place(self, r: &Row) -> usize
        ensures { result ≡ place self.width r.now }
    {
        if r.relation >= RELATIONS {
            return self.base(RELATIONS);
        }
        let s = self.second(r.relation);
        let t = self.third(r.relation);
        let low = digit(s, t, r.b as usize, r.c as usize);
        self.base(r.relation) + digit(self.width, s * t, r.a as usize, low)
    }

    // The relation of the row with i admissible rows before it. `at` rows lie in the relations below k.
    fn relation_at(self, i: usize) -> u32
        requires { i < base self.width 40 }
        ensures is { result ≡ relation_at self.width 39 i }
        ensures known { result < 40 }
        ensures below { base self.width result ≤ i }
    {
        let mut at: usize = 0;
        for k in 0..LAST {
            let more = self.size(k);
            if i - at < more {
                return k;
            }
            at += more;
        }
        LAST
    }

    // The row with i admissible rows before it.
    pub fn row_at(self, i: usize) -> Row
        requires { i < base self.width 40 }
        ensures { result ≡ row_of self.width i }
    {
        let k = self.relation_at(i);
        let t = self.third(k);
        let st = self.second(k) * t;
        let j = i - self.base(k);
        Row {
            relation: k,
            a: (j / st) as u32,
            b: (j % st / t) as u32,
            c: (j % st % t) as u32,
        }
    }
}

// 1 where relation k is below the other, else 0.
fn past(k: u32, relation: u32) -> usize
    ensures is { result ≡ past k relation }
    ensures most { result ≤ 1 }
{
    if k < relation { 1 } else { 0 }
}

// How many relations below one have three places.
fn threes(relation: u32) -> usize
    ensures is { result ≡ threes relation }
    ensures most { result ≤ 5 }
{
    // A count over a list of them is slower: `next` takes twice the time.
    past(LOAN_ISSUED_AT, relation)
        + past(SUBSET_BASE, relation)
        + past(SUBSET, relation)
        + past(ORIGIN_CONTAINS_LOAN_ON_ENTRY, relation)
        + past(SUBSET_ERRORS, relation)
}

// How many pairs of a number below n and one below m come before (q, r).
fn digit(n: usize, m: usize, q: usize, r: usize) -> usize
    requires n { n ≤ 32 }
    requires m { m ≤ 1024 }
    requires q { q < 2 ^ 32 }
    ensures is { result ≡ digit n m q r }
    ensures most { result ≤ 32768 }
{
    (q * m + r.min(m)).min(n * m)
}
