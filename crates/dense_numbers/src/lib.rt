// The dense layer, numbers: exact amplitudes as four signed whole numbers, the coefficients of 1, ω, ω² and ω³ (document 01, "Amplitudes").
// Every function that adds or negates is given numbers of bounded size, and none overflows.
#![tactic(auto)]

ghost use Rattle.std.specs.Prelude.{◌≡◌, ◌<◌, ◌≤◌};
ghost use Rattle.amplitude.specs.Number.{1ω, ◌+ω◌, neg, mulω, ω^, mul√2, √2^};
ghost use Rattle.amplitude.specs.Testing.{eqω};
ghost use Rattle.dense_numbers.specs.Numbers.{number, of_coefficients, coefficients, Sized, most_doublings};

use std::ops::{Add, Neg};

// An amplitude: a + bω + cω² + dω³.
// Stays: how large it may be stands in the contracts, not in the type, since a sum is one doubling larger than what is added.
#[derive(Clone, Copy, Debug, PartialEq, Eq)]
pub struct Amplitude {
    pub a: i64,
    pub b: i64,
    pub c: i64,
    pub d: i64,
}

impl From<[i64; 4]> for Amplitude {
    ghost from_gives = { λ numbers x. number x ≡ of_coefficients numbers };

    #[tactic(auto, unfolding(crate::specs::Numbers::of_coefficients))]
    fn from(numbers: [i64; 4]) -> Amplitude {
        let [a, b, c, d] = numbers;
        Amplitude { a, b, c, d }
    }
}

impl From<Amplitude> for [i64; 4] {
    ghost from_gives = { λ x numbers. numbers ≡ coefficients (number x) };

    #[tactic(auto, unfolding(crate::specs::Numbers::coefficients))]
    fn from(x: Amplitude) -> [i64; 4] {
        [x.a, x.b, x.c, x.d]
    }
}

impl Add for Amplitude {
    type Output = Amplitude;

    ghost can_add = { λ x y. Sized most_doublings (number x) × Sized most_doublings (number y) };

    ghost add_gives = { λ x y r. number r ≡ number x +ω number y };

    fn add(self, y: Amplitude) -> Amplitude {
        Amplitude {
            a: self.a + y.a,
            b: self.b + y.b,
            c: self.c + y.c,
            d: self.d + y.d,
        }
    }
}

impl Neg for Amplitude {
    type Output = Amplitude;

    ghost can_neg = { λ x. Sized most_doublings (number x) };

    ghost neg_gives = { λ x r. number r ≡ neg (number x) };

    fn neg(self) -> Amplitude {
        Amplitude {
            a: -self.a,
            b: -self.b,
            c: -self.c,
            d: -self.d,
        }
    }
}

impl Amplitude {
    // 1.
    pub const ONE: Amplitude = Amplitude {
        a: 1,
        b: 0,
        c: 0,
        d: 0,
    };

    // An amplitude times ω: the coefficients move up, and the last comes round negated, since ω⁴ = −1.
    pub fn times_omega(self) -> Amplitude
        requires { Sized most_doublings (number self) }
        ensures { number result ≡ mulω (number self) }
    {
        Amplitude {
            a: -self.d,
            b: self.a,
            c: self.b,
            d: self.c,
        }
    }

    // An amplitude times ω, ω² or ω³.
    fn times_low_power(self, k: u8) -> Amplitude
        requires power { (1 ≤ k) × (k < 4) }
        requires small { Sized most_doublings (number self) }
        ensures { number result ≡ ω^ k (number self) }
    {
        let y = self.times_omega();
        match k {
            1 => y,
            2 => y.times_omega(),
            _ => y.times_omega().times_omega(),
        }
    }

    // An amplitude times ω^k: ω⁴ is −1. The powers that most gates have, 1 and −1, come first.
    pub fn times_power(self, k: u8) -> Amplitude
        requires { Sized most_doublings (number self) }
        ensures { number result ≡ ω^ k (number self) }
    {
        let k = k % 8;
        if k == 0 {
            return self;
        }
        if k == 4 {
            return -self;
        }
        if k < 4 {
            return self.times_low_power(k);
        }
        (-self).times_low_power(k - 4)
    }

    // An amplitude times √2 = ω − ω³.
    fn times_root_two(self) -> Amplitude
        requires { Sized most_doublings (number self) }
        ensures { number result ≡ mul√2 (number self) }
    {
        Amplitude {
            a: self.b - self.d,
            b: self.a + self.c,
            c: self.b + self.d,
            d: self.c - self.a,
        }
    }

    // 1 times √2, k times.
    pub fn root_two_power(k: usize) -> Amplitude
        requires { k ≤ most_doublings }
        ensures { number result ≡ √2^ k 1ω }
    {
        let mut z = Amplitude::ONE;
        for _ in 0..k {
            z = z.times_root_two();
        }
        z
    }

    // Does ω^k carry an amplitude to another?
    pub fn carries_to(self, k: u8, y: Amplitude) -> bool
        requires { Sized most_doublings (number self) }
        ensures { result ≡ eqω (ω^ k (number self)) (number y) }
    {
        self.times_power(k) == y
    }
}
