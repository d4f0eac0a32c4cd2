// The arguments of a program. No contract can say which they are; `tools/messages` and `tools/week_messages` test it.
ghost use Rattle.std.specs.Prelude.{◌≤◌, length, IfOk};

use std::env::FillError;
use std::io::Error;
use std::rt::Env;

// The numbers of Linux for a name that is too long, and for an argument that is not there.
const ENAMETOOLONG: i32 = 36;

const EINVAL: i32 = 22;

// Whether the program was started with an argument i. Number 0 is its own name.
pub fn is_given(rt: &impl Env, i: usize) -> bool {
    match rt.arg(i, &mut []) {
        Err(FillError::NotPresent) => false,
        _ => true,
    }
}

// Argument i, at the start of the buffer, and how many bytes it has; or the reason why it is not there.
pub fn take(rt: &impl Env, i: usize, bytes: &mut [u8]) -> Result<usize, Error>
    ensures { IfOk result (λ n. n ≤ length bytes.new) }
{
    match rt.arg(i, bytes) {
        Ok(n) => Ok(n),
        Err(FillError::TooLong) => Err(Error::from_raw_os_error(ENAMETOOLONG)),
        Err(FillError::NotPresent) => Err(Error::from_raw_os_error(EINVAL)),
    }
}

// Whether the first argument is this word.
pub fn asks(rt: &impl Env, word: &[u8]) -> bool {
    let mut first = [0u8; 4096];
    match rt.arg(1, &mut first) {
        Ok(n) => &first[..n] == word,
        Err(_) => false,
    }
}
