// The dense layer, turns and exchanges: the gates that only turn amplitudes or exchange them, on a column of n qubits, in place, in one pass
// over its places.
// Stays: a column and its n are two parameters; `Step` of dense_columns says why.
#![tactic(auto)]

ghost use Rattle.std.specs.Prelude.{◌≡◌, ◌≢◌, ◌<◌, false, ⊤};
ghost use Rattle.record_format.specs.Gate.{two, CX, CZ, SWAP};
ghost use Rattle.amplitude.specs.Bits.{put};
ghost use Rattle.amplitude.specs.Circuit.{apply};
ghost use Rattle.dense_numbers.specs.Numbers.{Sized, most_doublings};
ghost use Rattle.dense_columns.specs.Columns.{amplitude_at, Holds, AllSized, Room, itself};
ghost use Rattle.dense_turning.specs.Turns.{turned_where, crossed, lowest};
ghost use Rattle.dense_turning.specs.Local.{turned_local, crossed_local, cx_local, swap_local, pair_inside, lowest_below};

use dense_columns::{Step, cross, exchange, has_bit, pass, power, turn};

// ω^k where bits a and b are both 1: place by place.
#[derive(Clone, Copy)]
struct Turn {
    a: usize,
    b: usize,
    k: u8,
}

impl Step for Turn {
    ghost within = { λ s n. (s.a < n) × (s.b < n) };

    ghost key = { λ s. itself };

    ghost makes = { λ s. turned_where s.a s.b s.k };

    ghost takes = { λ s. Sized most_doublings };

    fn at(self, column: &mut [[i64; 4]], n: usize, w: usize) {
        if has_bit(w, self.a) && has_bit(w, self.b) {
            turn(column, w, self.k);
        }
    }

    ghost local = { λ s n l. turned_local n s.a s.b s.k };

    ghost inside = { λ s n l u b. b };
}

// ω^k where bits a and b are both 1.
pub fn turn_where(column: &mut [[i64; 4]], n: usize, a: usize, b: usize, k: u8)
    requires { (a < n) × (b < n) × Room n column.old × AllSized n most_doublings (amplitude_at column.old) }
    ensures { Holds n (turned_where a b k (amplitude_at column.old)) column.new }
{
    pass(column, n, Turn { a, b, k });
}

// CZ on a column.
#[tactic(auto, unfolding(amplitude::specs::Circuit::apply, crate::specs::Turns::turned_where))]
pub fn apply_cz(column: &mut [[i64; 4]], n: usize, a: usize, b: usize)
    requires { (a < n) × (b < n) × Room n column.old × AllSized n most_doublings (amplitude_at column.old) }
    ensures { Holds n (apply (two CZ a b) (amplitude_at column.old)) column.new }
{
    turn_where(column, n, a, b, 4);
}

// Amplitudes exchanged along qubit q, times ω^b and ω^c: pair by pair, at the lower place.
#[derive(Clone, Copy)]
struct Cross {
    q: usize,
    b: u8,
    c: u8,
}

impl Step for Cross {
    ghost within = { λ s n. s.q < n };

    ghost key = { λ s. put s.q false };

    ghost makes = { λ s. crossed s.q s.b s.c };

    ghost takes = { λ s. Sized most_doublings };

    fn at(self, column: &mut [[i64; 4]], n: usize, w: usize) {
        if !has_bit(w, self.q) {
            cross(column, w, w + power(self.q), self.b, self.c);
        }
    }

    ghost local = { λ s n l. crossed_local n s.q s.b s.c l };

    ghost inside = { λ s n l. pair_inside n s.q l };
}

// Amplitudes exchanged along qubit q, times ω^b and ω^c.
pub fn cross_along(column: &mut [[i64; 4]], n: usize, q: usize, b: u8, c: u8)
    requires { (q < n) × Room n column.old × AllSized n most_doublings (amplitude_at column.old) }
    ensures { Holds n (crossed q b c (amplitude_at column.old)) column.new }
{
    pass(column, n, Cross { q, b, c });
}

// CX: pair by pair along its target b, at the lower place.
#[derive(Clone, Copy)]
struct Cx {
    a: usize,
    b: usize,
}

impl Step for Cx {
    ghost within = { λ s n. (s.a < n) × (s.b < n) × (s.a ≢ s.b) };

    ghost key = { λ s. put s.b false };

    ghost makes = { λ s. apply (two CX s.a s.b) };

    ghost takes = { λ s z. ⊤ };

    fn at(self, column: &mut [[i64; 4]], n: usize, w: usize) {
        if !has_bit(w, self.b) && has_bit(w, self.a) {
            exchange(column, w, w + power(self.b));
        }
    }

    ghost local = { λ s n l. cx_local n s.a s.b l.1 };

    ghost inside = { λ s n l. pair_inside n s.b l.1 };
}

// CX on a column.
pub fn apply_cx(column: &mut [[i64; 4]], n: usize, a: usize, b: usize)
    requires { (a < n) × (b < n) × (a ≢ b) × Room n column.old }
    ensures { Holds n (apply (two CX a b) (amplitude_at column.old)) column.new }
{
    pass(column, n, Cx { a, b });
}

// SWAP: four places at a time, at the lowest of them. The two that have one of its bits are exchanged.
#[derive(Clone, Copy)]
struct Swap {
    a: usize,
    b: usize,
}

impl Step for Swap {
    ghost within = { λ s n. (s.a < n) × (s.b < n) × (s.a ≢ s.b) };

    ghost key = { λ s. lowest s.a s.b };

    ghost makes = { λ s. apply (two SWAP s.a s.b) };

    ghost takes = { λ s z. ⊤ };

    fn at(self, column: &mut [[i64; 4]], n: usize, w: usize) {
        if !has_bit(w, self.a) && !has_bit(w, self.b) {
            exchange(column, w + power(self.a), w + power(self.b));
        }
    }

    ghost local = { λ s n l. swap_local n s.a s.b l.0 l.1 l.2 };

    ghost inside = { λ s n l u b. lowest_below n s.a s.b u l.0 l.1 b };
}

// SWAP on a column.
pub fn apply_swap(column: &mut [[i64; 4]], n: usize, a: usize, b: usize)
    requires { (a < n) × (b < n) × (a ≢ b) × Room n column.old }
    ensures { Holds n (apply (two SWAP a b) (amplitude_at column.old)) column.new }
{
    pass(column, n, Swap { a, b });
}
