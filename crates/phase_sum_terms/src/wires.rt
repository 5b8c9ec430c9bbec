// The wires of a sum, in a lent slice.
ghost use Rattle.std.specs.Prelude.{◌≡◌, ◌<◌, map, length, get_or, set};
ghost use Rattle.record_format.specs.Gate.{one, X};
ghost use Rattle.phase_sum_meaning.specs.Parity.{of};
ghost use Rattle.phase_sum_types.specs.Workspace.{parity_of};
ghost use Rattle.phase_sum_types.specs.Unmerged.{Moves};

use phase_sum_types::Parity;
use std::marker::Model;

// The wires of a sum, one a qubit. Contracts see the list of the parities that they stand for.
#[derive(Drop)]
pub struct Wires<'a> {
    wires: &'a mut [Parity],
}

impl<'a> Model for Wires<'a> {
    ghost use Rattle.std.specs.Prelude.{List, map};
    ghost use Rattle.phase_sum_meaning.specs.Parity.{Parity};
    ghost use Rattle.phase_sum_types.specs.Workspace.{parity_of};

    ghost Value = { List Parity };

    ghost view = { λ w. map parity_of w.wires.now };
}

impl<'a> Wires<'a> {
    // The wires that a slice holds.
    pub fn new(wires: &'a mut [Parity]) -> Wires<'a>
        ensures wires { result ≡ map parity_of wires.old }
        ensures many { length result ≡ length wires.old }
    {
        Wires { wires }
    }

    // How many wires there are.
    pub fn len(&self) -> usize
        ensures { result ≡ length self.now }
    {
        self.wires.len()
    }

    // Wire q.
    #[tactic(auto, using(crate::proofs::WireLists::length_wires, crate::proofs::WireLists::wire_at))]
    pub fn get(&self, q: usize) -> Parity
        requires { q < length self.now }
        ensures { parity_of result ≡ get_or self.now q (of 0) }
    {
        let wires = &*self.wires;
        wires[q]
    }

    // Wire q set anew.
    // Stays: field by field; as a whole a parity is copied with its padding, and lists of CX take 4 % more; the bar is 3 % (docs/BENCHMARKS.md).
    #[tactic(auto, using(crate::proofs::WireLists::length_wires, crate::proofs::WireLists::wire_set))]
    pub fn set(&mut self, q: usize, w: Parity)
        requires { q < length self.old }
        ensures { self.new ≡ set self.old q (parity_of w) }
    {
        let wires = &mut *self.wires;
        let wire = &mut wires[q];
        wire.set = w.set;
        wire.flipped = w.flipped;
    }

    // X: wire q complemented.
    #[tactic(auto, using(crate::proofs::WireLists::length_wires))]
    pub fn flip(&mut self, q: usize)
        requires { q < length self.old }
        ensures { Moves (one X q) self.old self.new }
    {
        let wires = &mut *self.wires;
        let flipped = &mut wires[q].flipped;
        *flipped = !*flipped;
    }
}
