// The comparison layer, checking: the checks on a pair, in document 01's order ("Where a call is turned down"). The first list, the second, 8
// and 9 are of the two records alone; 10, of the workspaces, stands by itself behind them.
#![tactic(auto)]

ghost use Rattle.std.specs.Prelude.{◌≡◌, ◌||◌, [], ltb, IfOk};
ghost use Rattle.record_format.specs.Reading.{read};
ghost use Rattle.phase_sum_meaning.specs.Room.{places, set_words};
ghost use Rattle.comparison_types.specs.Call.{workspace_rows, pair_fault};
ghost use Rattle.comparison_types.specs.Inner.{AcceptedWith, found_fault, PairRead};

use comparison_types::{Pair, Refusal};
use gate_counting::h_gates;
use phase_sum_types::WORDS_EACH;
use record_format::Head;
use record_reading::{check, gate_bytes};

// The places of a workspace, a coefficient each.
pub const PLACES: usize = 3200;

// The words of the other workspace: a set at each place.
pub const SET_WORDS: usize = WORDS_EACH * PLACES;

// The variables that a pair may have.
pub const MOST_VARIABLES: usize = 128;

// 8 and 9, for two accepted lists with these heads.
fn check_sizes<'a>(
    first: &'a [u8],
    second: &'a [u8],
    one: Head,
    other: Head,
) -> Result<Pair<'a>, Refusal>
    requires { AcceptedWith one.n one.g first.now × AcceptedWith other.n other.g second.now }
    ensures fault { found_fault result ≡ pair_fault (read first.now) (read second.now) [] }
    ensures found { IfOk result (λ p. PairRead first.now second.now p) }
{
    let n = one.n;
    if n != other.n {
        return Err(Refusal::QubitsDiffer);
    }
    let first = gate_bytes(first, one.g);
    let second = gate_bytes(second, other.g);
    if n + (h_gates(first) + h_gates(second)) > MOST_VARIABLES {
        return Err(Refusal::TooManyVariables);
    }
    Ok(Pair { n, first, second })
}

// The checks on two records: the first list, the second, 8 and 9. Each list is read once, and what was found is handed on.
pub fn check_pair<'a>(first: &'a [u8], second: &'a [u8]) -> Result<Pair<'a>, Refusal>
    ensures fault { found_fault result ≡ pair_fault (read first.now) (read second.now) [] }
    ensures found { IfOk result (λ p. PairRead first.now second.now p) }
{
    let one = check(first).map_err(Refusal::First)?;
    let other = check(second).map_err(Refusal::Second)?;
    check_sizes(first, second, one, other)
}

// 10: is one of two workspaces short of its words or bytes?
pub fn workspace_short(words: usize, bytes: usize) -> bool
    ensures { result ≡ (ltb words set_words || ltb bytes places) }
{
    words < SET_WORDS || bytes < PLACES
}

// All the checks on a call: those on the two records, then that on the workspaces.
pub fn check_call<'a>(
    first: &'a [u8],
    second: &'a [u8],
    words: usize,
    bytes: usize,
) -> Result<Pair<'a>, Refusal>
    ensures fault { found_fault result ≡ pair_fault (read first.now) (read second.now) (workspace_rows words bytes) }
    ensures found { IfOk result (λ p. PairRead first.now second.now p) }
{
    let pair = check_pair(first, second)?;
    if workspace_short(words, bytes) {
        return Err(Refusal::WorkspaceShort);
    }
    Ok(pair)
}
