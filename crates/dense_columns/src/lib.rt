// The dense layer, columns: exact amplitudes in a lent slice, four numbers each, read and changed in place.
#![tactic(auto)]

ghost use Rattle.std.specs.Prelude.{◌≡◌, ℕ, ◌^◌, ◌<◌, length};
ghost use Rattle.amplitude.specs.Number.{Zω, ω^};
ghost use Rattle.amplitude.specs.Bits.{bit};
ghost use Rattle.amplitude.specs.Circuit.{State};
ghost use Rattle.dense_numbers.specs.Numbers.{number, Sized, most_doublings};
ghost use Rattle.dense_columns.specs.Columns.{amplitude_at, stored, Exchanged, Holds, Room, Turned, Local, Inside};

use dense_numbers::Amplitude;

// The amplitude at place w.
#[tactic(auto, unfolding(crate::specs::Columns::amplitude_at))]
pub fn load(column: &[[i64; 4]], w: usize) -> Amplitude
    requires { w < length column.now }
    ensures { number result ≡ amplitude_at column.now w }
{
    column[w].into()
}

// The amplitudes of two places exchanged.
pub fn exchange(column: &mut [[i64; 4]], low: usize, high: usize)
    requires { (low < length column.old) × (high < length column.old) }
    ensures whole { column.new ≡ stored (stored column.old low (amplitude_at column.old high)) high (amplitude_at column.old low) }
    ensures exchanged { Exchanged low high column.old column.new }
{
    column.swap(low, high);
}

// The amplitudes of two places exchanged, that which comes to the first times ω^b and the other times ω^c.
#[tactic(auto, unfolding(crate::specs::Columns::stored))]
pub fn cross(column: &mut [[i64; 4]], low: usize, high: usize, b: u8, c: u8)
    requires { (low < length column.old) × (high < length column.old) × Sized most_doublings (amplitude_at column.old low) × Sized most_doublings (amplitude_at column.old high) }
    ensures { column.new ≡ stored (stored column.old low (ω^ b (amplitude_at column.old high))) high (ω^ c (amplitude_at column.old low)) }
{
    let x = load(column, low);
    let y = load(column, high);
    column[low] = y.times_power(b).into();
    column[high] = x.times_power(c).into();
}

// The amplitude at place w times ω^k.
#[tactic(auto, unfolding(crate::specs::Columns::stored))]
pub fn turn(column: &mut [[i64; 4]], w: usize, k: u8)
    requires { (w < length column.old) × Sized most_doublings (amplitude_at column.old w) }
    ensures { column.new ≡ stored column.old w (ω^ k (amplitude_at column.old w)) }
{
    column[w] = load(column, w).times_power(k).into();
}

// Is bit q of a place 1?
pub fn has_bit(w: usize, q: usize) -> bool
    requires { q < 64 }
    ensures { result ≡ bit q w }
{
    (w >> q) % 2 == 1
}

// 2^q: the places of q qubits, and the distance of two places that differ in bit q alone.
pub fn power(q: usize) -> usize
    requires { q < 64 }
    ensures { result ≡ 2 ^ q }
{
    1 << q
}

// A gate's step at one place of a column. Which qubits it takes, which places are done together, by their key, what it makes of a state, and
// what the amplitudes have to be. It reads the places of a key alone.
// Stays: a column and its n, the qubits, are two parameters. A struct of both, lent to be changed, would make each contract say that n stays.
pub trait Step {
    ghost within: { Self → ℕ → Type 0 };

    ghost key: { Self → ℕ → ℕ };

    ghost makes: { Self → State → State };

    ghost takes: { Self → Zω → Type 0 };

    // The step at place w.
    fn at(self, column: &mut [[i64; 4]], n: usize, w: usize)
        requires qubits { within self n }
        requires place { w < 2 ^ n }
        requires room { Room n column.old }
        requires small { (u : ℕ) → u < 2 ^ n → key self u ≡ w → takes self (amplitude_at column.old u) }
        ensures { Turned n (key self) (makes self) w column.old column.new };

    ghost local: { (s : Self) (n : ℕ) → within s n → Local n (key s) (makes s) };

    ghost inside: { (s : Self) (n : ℕ) → within s n → Inside n (key s) };
}

// A pass over a column: the step at each place in turn.
pub fn pass<S: Step + Copy>(column: &mut [[i64; 4]], n: usize, step: S)
    requires qubits { S.within step n }
    requires room { Room n column.old }
    requires small { (u : ℕ) → u < 2 ^ n → S.takes step (amplitude_at column.old u) }
    ensures { Holds n (S.makes step (amplitude_at column.old)) column.new }
{
    for w in 0..power(n) {
        step.at(column, n, w);
    }
}
