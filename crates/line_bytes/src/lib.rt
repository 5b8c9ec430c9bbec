// Lines as bytes: a word, numbers with a space before each, a newline. The line of a refusal has no `requires`.
#![tactic(auto)]

ghost use Rattle.std.specs.Prelude.{◌≡◌, ◌+◌, ◌*◌, ◌≤◌, ◌++◌, length};
ghost use Rattle.arrayvec.specs.ArrayVec.{array_vec_len};
ghost use Rattle.line_bytes.specs.Line.{field, refused_line, line_with};
ghost use Rattle.line_bytes.specs.Inner.{Wrote};

use arrayvec::ArrayVec;
use itoa::Buffer;

// The bytes that every line fits into; the longest line takes 42.
pub const LINE_SIZE: usize = 64;

// A line that a program prints.
pub type Line = ArrayVec<u8, LINE_SIZE>;

// Bytes that there is room for.
#[tactic(auto, using(crate::proofs::Laws::wrote_behind))]
fn push_bytes<const N: usize>(line: &mut ArrayVec<u8, N>, bytes: &[u8])
    requires { array_vec_len line.old + length bytes.now ≤ N }
    ensures all { line.new.items ≡ line.old.items ++ bytes.now }
    ensures wrote { Wrote (array_vec_len line.old) bytes.now line.old.items (array_vec_len line.new) line.new.items }
{
    let _ = line.try_extend_from_slice(bytes);
}

// A space and a number.
#[tactic(auto, using(crate::proofs::Laws::field_behind))]
fn push_field<const N: usize>(line: &mut ArrayVec<u8, N>, number: u16)
    requires { array_vec_len line.old + 6 ≤ N }
    ensures all { line.new.items ≡ line.old.items ++ field number }
    ensures wrote { Wrote (array_vec_len line.old) (field number) line.old.items (array_vec_len line.new) line.new.items }
{
    let mut digits = Buffer::new();
    push_bytes(line, b" ");
    push_bytes(line, digits.format(number).as_bytes());
}

// A line: a word, numbers, the line's end.
#[tactic(auto, using(crate::proofs::Laws::room_behind))]
pub fn write_line<const N: usize>(word: &[u8], numbers: &[u16]) -> ArrayVec<u8, N>
    requires { length word.now + 6 * length numbers.now + 1 ≤ N }
    ensures { result.items ≡ line_with word.now numbers.now }
{
    let mut line = ArrayVec::new();
    push_bytes(&mut line, word);
    for number in numbers {
        push_field(&mut line, *number);
    }
    push_bytes(&mut line, b"\n");
    line
}

// The line of a refusal by its number.
pub fn write_refusal(number: u8) -> Line
    ensures { result.items ≡ refused_line number }
{
    write_line(b"refused", &[u16::from(number)])
}
