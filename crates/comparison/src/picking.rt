// The pick: of two lists that compare equal, the record with fewer T gates. Document 01, "Report, pick, builder".
// Stays: licensees lend two plain slices, so sets and coefficients are two parameters; `Phase` of phase_sum_types says why they stay so.
ghost use Rattle.std.specs.Prelude.{◌≡◌, ◌+◌, ◌≤◌, ◌&&◌, length, take};
ghost use Rattle.record_format.specs.Format.{head_size};
ghost use Rattle.record_format.specs.Reading.{gates_in};
ghost use Rattle.phase_sum_meaning.specs.Room.{places, set_words};
ghost use Rattle.comparison_types.specs.Call.{comparison, left_by, verdict_of, is_equal, better, picked, picked_part, picked_at};
ghost use Rattle.comparison_types.specs.Clauses.{PickIsRight, EmptyIfRefused};

use crate::comparing::compare_read;
use comparison_types::Verdict;
use gate_counting::t_gates;
use record_format::{GATE_SIZE, HEAD_SIZE};

// Is the second list better: fewer T gates, or as many and fewer gates? By the gate bytes of both.
fn second_is_better(first: &[u8], second: &[u8]) -> bool
    ensures { result ≡ better (gates_in first.now) (gates_in second.now) }
{
    let t = t_gates(first);
    let u = t_gates(second);
    if u < t {
        return true;
    }
    if t < u {
        return false;
    }
    second.len() / GATE_SIZE < first.len() / GATE_SIZE
}

// Is the second list taken: the verdict is equal, and the second list is better? By the gate bytes of both.
fn takes_second(verdict: Verdict, first: &[u8], second: &[u8]) -> bool
    ensures { result ≡ is_equal (verdict_of verdict) && better (gates_in first.now) (gates_in second.now) }
{
    match verdict {
        Verdict::Equal => second_is_better(first, second),
        Verdict::Different | Verdict::Undecided | Verdict::Turned => false,
    }
}

// The bytes of the record at the start of s that has these gate bytes.
fn whole<'a, 'b>(s: &'a [u8], gates: &'b [u8]) -> &'a [u8]
    requires { head_size + length gates.now ≤ length s.now }
    ensures content { result.now ≡ take (head_size + length gates.now) s.now }
    ensures own { result.ref_ptr ≡ s.entry.ref_ptr }
{
    &s[..HEAD_SIZE + gates.len()]
}

// Of two lists that compare equal, the record of the better one, as the caller's own part; the first if they are different, undecided or
// turned; an empty part of the first if the pair is refused.
pub fn pick<'a, 'b, 'c>(
    first: &'a [u8],
    second: &'a [u8],
    sets: &'b mut [u64],
    coeffs: &'c mut [u8],
) -> &'a [u8]
    ensures content { result.now ≡ picked_part (picked first.now second.now (length sets.old) (length coeffs.old)) first.now second.now }
    ensures own { result.ref_ptr ≡ picked_at (picked first.now second.now (length sets.old) (length coeffs.old)) first.entry.ref_ptr second.entry.ref_ptr }
    ensures kept { (sets.new ≡ left_by set_words (comparison first.now second.now (length sets.old) (length coeffs.old)) sets.old) × (coeffs.new ≡ left_by places (comparison first.now second.now (length sets.old) (length coeffs.old)) coeffs.old) }
    ensures right { PickIsRight first.now second.now (length sets.old) (length coeffs.old) result.now }
    ensures empty { EmptyIfRefused first.now second.now (length sets.old) (length coeffs.old) result.now }
{
    match compare_read(first, second, sets, coeffs) {
        Err(_) => &first[..0],
        Ok(compared) => {
            if takes_second(compared.outcome.verdict, compared.first, compared.second) {
                return whole(second, compared.second);
            }
            whole(first, compared.first)
        }
    }
}
