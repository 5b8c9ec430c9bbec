// The dense layer, checking: the checks on a call, in document 02's order. Those on the two records, then 14, then 10.
#![tactic(auto)]

ghost use Rattle.std.specs.Prelude.{◌≡◌, IfOk};
ghost use Rattle.record_format.specs.Reading.{read};
ghost use Rattle.comparison_types.specs.Call.{pair_fault};
ghost use Rattle.dense_types.specs.Call.{block_rows};
ghost use Rattle.dense_checking.specs.Checking.{found_fault, Passes};

use comparison_checking::check_pair;
use comparison_types::{Pair, Refusal};
use dense_judging::Lists;
use dense_meaning::BUFFER_SIZE;
use gate_counting::h_gates;

// The qubits of the largest block.
pub const BLOCK_QUBITS: usize = 6;

// The H gates that both lists of a block may have together.
pub const BLOCK_H_GATES: usize = 60;

// All the checks on a call with a buffer of so many numbers: those on the two records, 14 and 10.
pub fn check_call<'a>(
    first: &'a [u8],
    second: &'a [u8],
    numbers: usize,
) -> Result<Lists<'a>, Refusal>
    ensures fault { found_fault result ≡ pair_fault (read first.now) (read second.now) (block_rows first.now second.now numbers) }
    ensures found { IfOk result (λ b. Passes first.now second.now numbers b) }
{
    let Pair { n, first, second } = check_pair(first, second)?;
    if n > BLOCK_QUBITS {
        return Err(Refusal::BlockTooLarge);
    }
    let h = h_gates(first);
    let k = h_gates(second);
    if h + k > BLOCK_H_GATES {
        return Err(Refusal::BlockTooLarge);
    }
    if numbers < BUFFER_SIZE {
        return Err(Refusal::WorkspaceShort);
    }
    Ok(Lists {
        n,
        first,
        second,
        h,
        k,
    })
}
