// Reading a file or standard input: the bytes up to its end or as far as a buffer goes.
ghost use Rattle.std.specs.Prelude.{◌≤◌, length, IfOk};

use std::env::FillError;
use std::io::{Error, ErrorKind, Read};
use std::rt::{Env, Files};
use std::{fs, io, str};

// The bytes of a name that is taken; a path that the system takes is shorter. std takes paths that are UTF-8.
pub const NAME_SIZE: usize = 4096;

// Reads of one input; each that is not interrupted gets a byte or is the last, and buffers are far shorter.
const MOST_TURNS: u32 = 1000000;

// Numbers of errors, as Linux has them: a signal came first, there is no such argument, a name is too long.
// Stays: numbers, since the library makes an error with the system's own words from them.
const INTERRUPTED: i32 = 4;

const NO_ARGUMENT: i32 = 22;

const NAME_TOO_LONG: i32 = 36;

// The bytes that are read into a buffer until the input ends, the buffer is full or a read fails; a read that a signal interrupts is done again.
pub fn read_all<'a, I: Read>(from: &mut I, buffer: &'a mut [u8]) -> io::Result<&'a [u8]>
    ensures { IfOk result (λ read. length read.now ≤ length buffer.old) }
{
    let mut done = 0;
    for _turn in 0..MOST_TURNS {
        if done == buffer.len() {
            return Ok(buffer);
        }
        match from.read(&mut buffer[done..]) {
            Ok(0) => return Ok(&buffer[..done]),
            Ok(count) => done += count,
            Err(why) if why.kind() == ErrorKind::Interrupted => {}
            Err(why) => return Err(why),
        }
    }
    Err(Error::from_raw_os_error(INTERRUPTED))
}

// The bytes of the file of a name, as far as a buffer goes.
pub fn read_file<'a, R: Files>(rt: &R, name: &str, buffer: &'a mut [u8]) -> io::Result<&'a [u8]>
    ensures { IfOk result (λ read. length read.now ≤ length buffer.old) }
{
    let mut file = fs::open(rt, name)?;
    read_all(&mut file, buffer)
}

// The name that an argument is.
pub fn name_at<'a, R: Env>(
    rt: &R,
    place: usize,
    name: &'a mut [u8; NAME_SIZE],
) -> io::Result<&'a str> {
    match rt.arg(place, name) {
        Ok(size) => str::from_utf8(&name[..size]).map_err(|_| Error::new(
            ErrorKind::InvalidFilename,
            "it is not UTF-8",
        )),
        Err(FillError::TooLong) => Err(Error::from_raw_os_error(NAME_TOO_LONG)),
        Err(FillError::NotPresent) => Err(Error::from_raw_os_error(NO_ARGUMENT)),
    }
}
