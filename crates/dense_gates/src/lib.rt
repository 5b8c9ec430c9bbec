// The dense layer, one-qubit gates: each on a column of n qubits, in place, in one pass over its places.
// Stays: a column and its n are two parameters; `Step` of dense_columns says why.
#![tactic(auto)]

ghost use Rattle.std.specs.Prelude.{◌≡◌, ℕ, ◌<◌, false, eqb, length, get_or, [], None};
ghost use Rattle.record_format.specs.Gate.{one};
ghost use Rattle.record_format.specs.Typed.{one_in};
ghost use Rattle.amplitude.specs.Bits.{put};
ghost use Rattle.amplitude.specs.Number.{◌+ω◌, ω^};
ghost use Rattle.amplitude.specs.Matrix.{ω, matrix, entry};
ghost use Rattle.amplitude.specs.Circuit.{apply};
ghost use Rattle.dense_numbers.specs.Numbers.{Sized, most_doublings};
ghost use Rattle.dense_columns.specs.Columns.{amplitude_at, stored, Holds, AllSized, Room};
ghost use Rattle.dense_gates.specs.Gates.{entry_of, combined};
ghost use Rattle.dense_turning.specs.Local.{pair_inside};
ghost use Rattle.dense_gates.specs.Local.{combined_local};

use dense_columns::{Step, has_bit, load, pass, power};
use dense_turning::{cross_along, turn_where};
use record_format::gate::OneQubit;

// The table of the one-qubit matrices by kind, two rows of two entries each: a power of ω, or None for 0.
fn matrix_of(kind: OneQubit) -> [[Option<u8>; 2]; 2]
    ensures { (row column : ℕ) → row < 2 → column < 2 → entry_of (get_or (get_or result row []) column None) ≡ entry (matrix (one_in kind)) (eqb row 1) (eqb column 1) }
{
    match kind {
        OneQubit::X => [[None, Some(0)], [Some(0), None]],
        OneQubit::Y => [[None, Some(6)], [Some(2), None]],
        OneQubit::Z => [[Some(0), None], [None, Some(4)]],
        OneQubit::S => [[Some(0), None], [None, Some(2)]],
        OneQubit::SInverse => [[Some(0), None], [None, Some(6)]],
        OneQubit::T => [[Some(0), None], [None, Some(1)]],
        OneQubit::TInverse => [[Some(0), None], [None, Some(7)]],
        OneQubit::H => [[Some(0), Some(0)], [Some(0), Some(4)]],
    }
}

// A matrix of powers of ω along qubit q, a and b in its first row, c and d in its second: pair by pair, at the lower place.
#[derive(Clone, Copy)]
struct Combine {
    q: usize,
    a: u8,
    b: u8,
    c: u8,
    d: u8,
}

impl Combine {
    // The matrix on the amplitudes of a pair of places.
    #[tactic(auto, unfolding(dense_columns::specs::Columns::stored))]
    fn combine(self, column: &mut [[i64; 4]], low: usize, high: usize)
        requires { (low < length column.old) × (high < length column.old) × Sized most_doublings (amplitude_at column.old low) × Sized most_doublings (amplitude_at column.old high) }
        ensures { column.new ≡ stored (stored column.old low (ω^ self.a (amplitude_at column.old low) +ω ω^ self.b (amplitude_at column.old high))) high (ω^ self.c (amplitude_at column.old low) +ω ω^ self.d (amplitude_at column.old high)) }
    {
        let x = load(column, low);
        let y = load(column, high);
        column[low] = (x.times_power(self.a) + y.times_power(self.b)).into();
        column[high] = (x.times_power(self.c) + y.times_power(self.d)).into();
    }
}

impl Step for Combine {
    ghost within = { λ s n. s.q < n };

    ghost key = { λ s. put s.q false };

    ghost makes = { λ s. combined s.q (ω s.a) (ω s.b) (ω s.c) (ω s.d) };

    ghost takes = { λ s. Sized most_doublings };

    fn at(self, column: &mut [[i64; 4]], n: usize, w: usize) {
        if !has_bit(w, self.q) {
            self.combine(column, w, w + power(self.q));
        }
    }

    ghost local = { λ s n l. combined_local n s.q (ω s.a) (ω s.b) (ω s.c) (ω s.d) l };

    ghost inside = { λ s n l. pair_inside n s.q l };
}

// A one-qubit gate on a column, by its matrix. A diagonal one turns the amplitudes where its qubit is 1, one with zeros in the diagonal
// exchanges them along it, and one without zeros combines them. No other is in the table.
pub fn apply_one(column: &mut [[i64; 4]], n: usize, kind: OneQubit, q: usize)
    requires { (q < n) × Room n column.old × AllSized n most_doublings (amplitude_at column.old) }
    ensures { Holds n (apply (one (one_in kind) q) (amplitude_at column.old)) column.new }
{
    let [[a, b], [c, d]] = matrix_of(kind);
    match (a, b, c, d) {
        (_, None, _, Some(d)) => turn_where(column, n, q, q, d),
        (None, Some(b), Some(c), _) => cross_along(column, n, q, b, c),
        (Some(a), Some(b), Some(c), Some(d)) => pass(column, n, Combine { q, a, b, c, d }),
        _ => unreachable!(),
    }
}
