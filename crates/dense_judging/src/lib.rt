// The dense layer, judging: one column of each list at a time, each in a half of a buffer, compared for the powers of ω. Column 0 fits at
// most one power, so that later columns are tried for this one alone.
// Stays: columns to compare and their n are parameters, as run_column takes a column and its n; `Step` of dense_columns says why.
#![tactic(auto)]

ghost use Rattle.std.specs.Prelude.{◌≡◌, ℕ, ◌^◌, ◌<◌, ◌≤◌, true, false, length, replicate, pos, MatchOption};
ghost use Rattle.record_format.specs.Reading.{gates_in};
ghost use Rattle.amplitude.specs.Testing.{carries_state};
ghost use Rattle.dense_meaning.specs.Limits.{buffer_size};
ghost use Rattle.dense_meaning.specs.Columns.{finding};
ghost use Rattle.dense_numbers.specs.Numbers.{most_doublings};
ghost use Rattle.dense_columns.specs.Columns.{amplitude_at, AllSized, Room};
ghost use Rattle.dense_judging.specs.Judging.{Block, Block-prop, BothRun, finding_in};

use dense_columns::{load, power};
use dense_running::run_column;

// The places of a column of six qubits.
const PLACES: usize = 64;

// The powers of ω.
const POWERS: u8 = 8;

// A block: two lists by their gate bytes, on n qubits, with h and k H gates.
#[derive(Clone, Copy)]
pub struct Lists<'a> {
    pub n: usize,
    pub first: &'a [u8],
    pub second: &'a [u8],
    pub h: usize,
    pub k: usize,
    ghost block: { Block n first.now second.now h k } by { Block-prop n first.now second.now h k },
}

// What comparing all columns finds: the power of ω that carries them all, or the first input at which none is left.
// Stays: a difference is no error, and a Result of two bare numbers would not say what they are.
#[derive(Clone, Copy, Debug, PartialEq, Eq)]
pub enum Judged {
    Carried(u8),
    Different(u16),
}

// Does ω^j carry the first column to the second, place by place? It stands in full at each call, so that a power known there is not asked for
// at each place.
#[inline(always)]
fn all_carried(first: &[[i64; 4]], second: &[[i64; 4]], n: usize, j: u8) -> bool
    requires { Room n first.now × Room n second.now × AllSized n most_doublings (amplitude_at first.now) }
    ensures { result ≡ carries_state n j (amplitude_at first.now) (amplitude_at second.now) }
{
    (0..power(n)).all(|w| load(first, w).carries_to(j, load(second, w)))
}

// Does ω^j carry the first column to the second? The power that most lists have, 1, comes first.
fn carries(first: &[[i64; 4]], second: &[[i64; 4]], n: usize, j: u8) -> bool
    requires { Room n first.now × Room n second.now × AllSized n most_doublings (amplitude_at first.now) }
    ensures { result ≡ carries_state n j (amplitude_at first.now) (amplitude_at second.now) }
{
    match j {
        0 => all_carried(first, second, n, 0),
        _ => all_carried(first, second, n, j),
    }
}

// Column v of both lists, each times √2 as often as the other has H gates.
fn run_both(first: &mut [[i64; 4]], second: &mut [[i64; 4]], lists: Lists, v: usize)
    requires input { v < 2 ^ lists.n }
    requires room { Room lists.n first.old × Room lists.n second.old }
    ensures { BothRun lists.entry.n (gates_in lists.entry.first.now) (gates_in lists.entry.second.now) v first.new second.new }
{
    run_column(first, lists.n, lists.first, v, lists.k);
    run_column(second, lists.n, lists.second, v, lists.h);
}

// The first power of ω that carries the first column to the second, if any does.
fn first_power(first: &[[i64; 4]], second: &[[i64; 4]], n: usize) -> Option<u8>
    requires { Room n first.now × Room n second.now × AllSized n most_doublings (amplitude_at first.now) }
    ensures { MatchOption result ((i : ℕ) → i < 8 → carries_state n i (amplitude_at first.now) (amplitude_at second.now) ≡ false) (λ j. (j < 8) × (carries_state n j (amplitude_at first.now) (amplitude_at second.now) ≡ true) × ((i : ℕ) → i < j → carries_state n i (amplitude_at first.now) (amplitude_at second.now) ≡ false)) }
{
    (0..POWERS).find(|j| carries(first, second, n, *j))
}

// All columns of both lists compared.
fn judge_columns(first: &mut [[i64; 4]], second: &mut [[i64; 4]], lists: Lists) -> Judged
    requires { Room lists.n first.old × Room lists.n second.old }
    ensures { finding_in result ≡ finding lists.entry.n (gates_in lists.entry.first.now) (gates_in lists.entry.second.now) }
{
    run_both(first, second, lists, 0);
    let Some(j) = first_power(first, second, lists.n) else {
        return Judged::Different(0);
    };
    for v in 1..power(lists.n) {
        run_both(first, second, lists, v);
        if !carries(first, second, lists.n, j) {
            return Judged::Different(v as u16);
        }
    }
    Judged::Carried(j)
}

// The same in a buffer that is zero afterwards: its first half, as amplitudes, for the columns of the first list, the second for the other's.
pub fn judge(buffer: &mut [i64], lists: Lists) -> Judged
    requires { buffer_size ≤ length buffer.old }
    ensures judged { finding_in result ≡ finding lists.entry.n (gates_in lists.entry.first.now) (gates_in lists.entry.second.now) }
    ensures zero { buffer.new ≡ replicate (length buffer.old) (pos 0) }
{
    let (amplitudes, _) = buffer.as_chunks_mut::<4>();
    let (first, second) = amplitudes.split_at_mut(PLACES);
    let judged = judge_columns(first, second, lists);
    buffer.fill(0);
    judged
}
