// Gate lists in rows: here the bytes that a row lends, in `refusals` and `reports` what it prints of a refusal and of a report. Bytes are in
// hexadecimal, or a list of gates on n qubits, which is built by start and add. `2:h0 t1 c01` is H on qubit 0, T on 1 and CX from 0 to 1: for each gate a
// letter, a qubit in hexadecimal and, for a gate on two qubits, the second; one space between two. The letters: x y z s t h, r and u for the
// inverses of S and T, c for CX, k for CZ, w for SWAP.
#![tactic(auto)]

ghost use Rattle.std.specs.Prelude.{◌≡◌, ◌≤◌, ◌↔◌, ◌∷◌, [], IsNone, IfSome, IfOk, MatchOption, vec_len};

mod gates;
pub mod refusals;
pub mod reports;

use calls_text::error::RowError;
use calls_text::hex;
use calls_text::numbers::number;
use gates::gate;
use records::{add, start};
use std::alloc::Global;

// The bytes that a row lends at most.
pub const MOST_BYTES: usize = 2048;

// The record of a list, at the front of so many bytes. None: a gate that is none, or that start or add refuses.
fn build(n: &str, gates: &str, buffer: &mut [u8]) -> Option<()> {
    start(buffer, number(n)?).ok()?;
    for text in gates.split_terminator(' ') {
        let [kind, a, b] = <[u8; 3]>::from(gate(text.as_bytes())?);
        add(buffer, kind, a, b).ok()?;
    }
    Some(())
}

// The record of a list, at the front of a buffer that is lent whole.
fn record(alloc: Global, n: &str, gates: &str) -> Result<Vec<u8>, RowError>
    ensures { IfOk result (λ bytes. vec_len bytes ≤ MOST_BYTES) }
{
    let mut buffer = vec![in alloc; 0xa5; MOST_BYTES]?;
    build(n, gates, buffer.as_mut_slice()).ok_or(RowError::Bad)?;
    Ok(buffer)
}

// The bytes of a row's part.
pub fn bytes_of(alloc: Global, text: &str) -> Result<Vec<u8>, RowError>
    ensures { IfOk result (λ bytes. vec_len bytes ≤ MOST_BYTES) }
{
    match text.split_once(':') {
        Some((n, gates)) => record(alloc, n, gates),
        None => hex::bytes(alloc, text, MOST_BYTES),
    }
}

// The lists of a pair.
#[derive(Clone, Drop)]
pub struct Lists {
    first: Vec<u8>,
    // None: the first is given twice.
    second: Option<Vec<u8>>,
}

impl Lists {
    // The lists of a row's two parts; the first twice where the second part is `=`.
    pub fn new(alloc: Global, first: &str, second: &str) -> Result<Lists, RowError>
        ensures twice { IfOk result (λ l. IsNone l.second ↔ (second.now ≡ 61 ∷ [])) }
        ensures first { IfOk result (λ l. vec_len l.first ≤ MOST_BYTES) }
        ensures second { IfOk result (λ l. IfSome l.second (λ bytes. vec_len bytes ≤ MOST_BYTES)) }
    {
        Ok(Lists {
            first: bytes_of(alloc, first)?,
            second: match second {
                "=" => None,
                _ => Some(bytes_of(alloc, second)?),
            },
        })
    }

    pub fn first(&self) -> &[u8]
        ensures { result.now ≡ self.now.first.items }
    {
        self.first.as_slice()
    }

    pub fn second(&self) -> &[u8]
        ensures { MatchOption self.now.second (result.now ≡ self.now.first.items) (λ bytes. result.now ≡ bytes.items) }
    {
        self.second.as_ref().unwrap_or(&self.first).as_slice()
    }
}

#[cfg(test)]
mod tests {
    use super::*;

    // A pair's lists are cloned, of two parts and of one that is given twice.
    #[test]
    fn lists_cloned(rt: HostRuntime) -> Result<(), RowError> {
        let first = [0x51, 0x43, 1];
        for (text, second) in [("515603", [0x51, 0x56, 3]), ("=", first)] {
            let lists = Lists::new(rt.alloc(), "514301", text)?;
            let cloned = lists.clone()?;
            assert_eq!(rt; cloned.first(), first.as_slice());
            assert_eq!(rt; cloned.second(), second.as_slice());
        }
        Ok(())
    }
}
