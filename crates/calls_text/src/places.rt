// Places that a call is lent, and what they hold afterwards. Before the call place after place holds what the next word says of a row of words that
// begins with the seed.
ghost use Rattle.std.specs.Prelude.{◌≡◌, ◌+◌, ◌-◌, ◌≤◌, ◌↔◌, length, IsSome, IfSome, IfOk, vec_len};

use std::alloc::{AllocError, Global};
use std::fmt;

// The word behind one: Marsaglia's xorshift, which leads from 0 to 0 alone.
fn xorshift(x: u64) -> u64 {
    let y = x ^ (x << 13);
    let z = y ^ (y >> 7);
    z ^ (z << 17)
}

// What a place can hold.
pub trait Place: Copy + Default + PartialEq {
    // The word behind one: of 0 it is 0.
    fn next(word: u64) -> u64 {
        xorshift(word)
    }

    // What a place holds at a word: of 0 alone it is 0.
    fn of(word: u64) -> Self;
}

impl Place for u64 {
    fn of(word: u64) -> u64 {
        word
    }
}

impl Place for u8 {
    // Stays: `as`, which is proved to lose nothing here; `try_from` gives a case that never comes, and no value for it.
    fn of(word: u64) -> u8 {
        if word == 0 { 0 } else { (word % 255 + 1) as u8 }
    }
}

// With the seed 1 every number is the lowest that there is, with 2 the highest; else they are of both signs.
impl Place for i64 {
    fn next(word: u64) -> u64 {
        if word < 3 { word } else { xorshift(word) }
    }

    fn of(word: u64) -> i64 {
        let half = (word / 2).cast_signed();
        match word {
            0 => 0,
            1 => i64::MIN,
            2 => i64::MAX,
            _ if word % 2 == 0 => half,
            _ => !half,
        }
    }
}

// The places, and what they held before the call.
#[derive(Drop)]
pub struct Lent<T> {
    before: Vec<T>,
    places: Vec<T>,
}

impl<T: Place> Lent<T> {
    // So many places before a call.
    pub fn new(alloc: Global, count: usize, seed: u64) -> Result<Lent<T>, AllocError>
        ensures places { IfOk result (λ l. vec_len l.places ≡ vec_len l.before) }
        ensures before { IfOk result (λ l. vec_len l.before ≡ count) }
    {
        let mut before = vec![in alloc; T::default(); count]?;
        let mut word = seed;
        for place in before.iter_mut() {
            *place = T::of(word);
            word = T::next(word);
        }
        let places = before.clone()?;
        Ok(Lent { before, places })
    }

    // The first so many of them, if there are as many.
    pub fn first(&mut self, count: usize) -> Option<&mut [T]>
        ensures count { IfSome result (λ s. length s.now ≡ count) }
        ensures fits { IsSome result ↔ (count ≤ vec_len self.old.places) }
    {
        self.places.as_mut_slice().get_mut(..count)
    }

    pub fn now(&self) -> &[T]
        ensures value { result.now ≡ self.now.places.items }
        ensures len { length result.now ≡ vec_len self.now.places }
    {
        self.places.as_slice()
    }

    // How many of the first so many are 0. Stays: a loop, as below, since `filter` with `count` branches at each place.
    fn zeros(&self, used: usize) -> usize
        ensures used { result ≤ used }
        ensures places { result ≤ vec_len self.now.places }
    {
        let mut zeros = 0;
        for i in 0..used.min(self.places.len()) {
            zeros += usize::from(self.places[i] == T::default());
        }
        zeros
    }

    // How many of those from one on hold what they held before the call.
    pub fn kept(&self, from: usize) -> usize
        ensures { result ≤ vec_len self.now.places - from }
    {
        let end = self.places.len().min(self.before.len());
        let mut kept = 0;
        for i in from..end {
            kept += usize::from(self.places[i] == self.before[i]);
        }
        kept
    }

    // What all of them hold after a call that uses the first so many.
    pub fn seen(&self, used: usize) -> Seen
        ensures used { result.zero ≤ used }
        ensures zero { result.zero ≤ vec_len self.now.places }
        ensures kept { result.kept ≤ vec_len self.now.places }
    {
        Seen {
            zero: self.zeros(used),
            kept: self.kept(0),
        }
    }
}

// How many of the places that a call uses are 0, and how many of all hold what they held before.
#[derive(Clone, Copy)]
pub struct Seen {
    zero: usize,
    kept: usize,
}

impl fmt::Display for Seen {
    fn fmt<W: fmt::Write>(&self, f: &mut fmt::Formatter<W>) -> fmt::Result {
        let Seen { zero, kept } = *self;
        write!(f, "zero {zero} kept {kept}")
    }
}
