// Decimal numbers.
ghost use Rattle.std.specs.Prelude.{◌≡◌, ◌<◌, ◌≤◌, ◌^◌, length, IfSome, IfOk, All};
ghost use Rattle.std.specs.Str.Parse.{IsNumeral, digits_value};

use crate::error::RowError;

// The digits that a number has at most.
const MOST_DIGITS: usize = 18;

// A number: one to 18 digits, and no sign.
#[tactic(auto, using(crate::proofs::Digits::value_of_18_digits))]
pub fn number(text: &str) -> Option<usize>
    ensures text { IfSome result (λ _. IsNumeral 10 text.now × (length text.now ≤ MOST_DIGITS)) }
    ensures value { IfSome result (λ x. x ≡ digits_value 10 text.now) }
    ensures most { IfSome result (λ x. x < 10 ^ 18) }
{
    if text.len() > MOST_DIGITS || !text.bytes().all(|c| c.is_ascii_digit()) {
        return None;
    }
    text.parse().ok()
}

// So many numbers, one space between two.
pub fn numbers<const N: usize>(text: &str) -> Result<[usize; N], RowError>
    ensures most { IfOk result (λ numbers. All (λ x. x < 10 ^ 18) numbers) }
{
    let mut parts = text.split(' ');
    let mut numbers = [0; N];
    for x in numbers.iter_mut() {
        let part = parts.next().ok_or(RowError::Bad)?;
        *x = number(part).ok_or(RowError::Bad)?;
    }
    match parts.next() {
        None => Ok(numbers),
        Some(_) => Err(RowError::Bad),
    }
}
