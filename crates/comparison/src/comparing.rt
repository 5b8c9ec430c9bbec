// The comparison: the checks on the pair, then building, pinning, reducing and the verdict.
// Stays: licensees lend two plain slices, so sets and coefficients are two parameters; `Phase` of phase_sum_types says why they stay so.
ghost use Rattle.std.specs.Prelude.{◌≡◌, length, replicate, IfOk};
ghost use Rattle.record_format.specs.Reading.{gates_in};
ghost use Rattle.phase_sum_meaning.specs.Room.{places, set_words};
ghost use Rattle.phase_sum_types.specs.Workspace.{sets_at, Level, lent, Sized};
ghost use Rattle.phase_sum_types.specs.Unmerged.{Buildable};
ghost use Rattle.comparison_meaning.specs.Verdict.{compare};
ghost use Rattle.comparison_types.specs.Call.{result_of, said_of, comparison, left_by};
ghost use Rattle.comparison_types.specs.Clauses.{Sound, Stops, Inputs, Clifford, CountsUp};
ghost use Rattle.comparison_types.specs.Inner.{CountedTo, ReducesEnd, answer_of, ComparedRead};

use comparison_checking::{PLACES, SET_WORDS, check_call};
use comparison_judging::judge;
use comparison_pinning::pin;
use comparison_reducing::reduce;
use comparison_types::{Compared, End, Outcome, Pair, Qubits, Refusal};
use phase_sum_building::build;
use phase_sum_terms::reading::PhaseTerms;
use phase_sum_terms::terms::clear;
use phase_sum_terms::wires::Wires;
use phase_sum_types::Parity;
use record_reading::MOST_QUBITS;

// Reducing what pinning left.
fn reduce_end(pinned: End, wires: &mut Wires, sets: &mut [u64], coeffs: &mut [u8]) -> End
    requires { CountedTo 0 pinned.reached.counts × Sized pinned.reached.sum (lent wires.old sets.old coeffs.old) × Level sets.old coeffs.old }
    ensures { ReducesEnd pinned result (lent wires.old sets.old coeffs.old) (lent wires.new sets.new coeffs.new) }
{
    match pinned.blocked {
        Some(_) => pinned,
        None => reduce(pinned.reached, wires, sets, coeffs),
    }
}

// The comparison of two lists of gates, by their bytes, on as many qubits as there are wires. The wires and the slices keep what the reduction left.
// Stays: two lists as two parameters: what `Buildable` says of them goes by n, the number of the wires; a struct with an n of its
// own would have each contract say that both are the same.
fn decide_in(
    first: &[u8],
    second: &[u8],
    wires: &mut Wires,
    sets: &mut [u64],
    coeffs: &mut [u8],
) -> Outcome
    requires { Buildable (length wires.old) first.now second.now (sets_at sets.old) coeffs.old × Level sets.old coeffs.old }
    ensures { result_of result ≡ compare 0 (length wires.old) (gates_in first.now) (gates_in second.now) }
{
    let n = wires.len();
    let sum = build(first, second, wires, sets, coeffs);
    let pinned = pin(sum, wires, sets, coeffs);
    let end = reduce_end(pinned, wires, sets, coeffs);
    let terms = PhaseTerms::new(sets, coeffs, end.reached.sum.phase);
    judge(end, Qubits::new(n as u32), &terms)
}

// The comparison of two lists of gates on n qubits, by their bytes, in the places that are lent. All of them are zero afterwards.
// Stays: n and the lists apart; of a `Pair` by value the clauses would say `pair.entry.first.now` for `first.now`, as those of `Lists` do.
fn decide(n: usize, first: &[u8], second: &[u8], sets: &mut [u64], coeffs: &mut [u8]) -> Outcome
    requires { Buildable n first.now second.now (sets_at sets.old) coeffs.old × Level sets.old coeffs.old }
    ensures steps { result_of result ≡ compare 0 n (gates_in first.now) (gates_in second.now) }
    ensures zero { (sets.new ≡ replicate (length sets.old) 0) × (coeffs.new ≡ replicate (length coeffs.old) 0) }
{
    let mut wires = [Parity::default(); MOST_QUBITS];
    let mut wires = Wires::new(&mut wires[..n]);
    let outcome = decide_in(first, second, &mut wires, sets, coeffs);
    clear(sets, coeffs);
    outcome
}

// Two lists compared, each read once: the outcome with the gate bytes of both lists, or why the pair is refused. Only the places that the
// comparison may use are lent on.
pub fn compare_read<'a, 'b, 'c>(
    first: &'a [u8],
    second: &'a [u8],
    sets: &'b mut [u64],
    coeffs: &'c mut [u8],
) -> Result<Compared<'a>, Refusal>
    ensures steps { said_of (answer_of result) ≡ comparison first.now second.now (length sets.old) (length coeffs.old) }
    ensures kept { (sets.new ≡ left_by set_words (said_of (answer_of result)) sets.old) × (coeffs.new ≡ left_by places (said_of (answer_of result)) coeffs.old) }
    ensures found { IfOk result (λ c. ComparedRead first.now second.now c) }
{
    let Pair { n, first, second } = check_call(first, second, sets.len(), coeffs.len())?;
    let outcome = decide(
        n,
        first,
        second,
        &mut sets[..SET_WORDS],
        &mut coeffs[..PLACES],
    );
    Ok(Compared {
        outcome,
        first,
        second,
    })
}

// Two lists compared: the verdict with its inputs and counts, or why the pair is refused.
pub fn compare(
    first: &[u8],
    second: &[u8],
    sets: &mut [u64],
    coeffs: &mut [u8],
) -> Result<Outcome, Refusal>
    ensures steps { said_of result ≡ comparison first.now second.now (length sets.old) (length coeffs.old) }
    ensures kept { (sets.new ≡ left_by set_words (said_of result) sets.old) × (coeffs.new ≡ left_by places (said_of result) coeffs.old) }
    ensures sound { Sound first.now second.now result }
    ensures stops { Stops first.now second.now result }
    ensures inputs { Inputs first.now second.now result }
    ensures clifford { Clifford first.now second.now result }
    ensures counts { CountsUp first.now second.now result }
{
    compare_read(first, second, sets, coeffs).map(|compared| compared.outcome)
}
