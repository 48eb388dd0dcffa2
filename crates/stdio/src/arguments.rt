// What the arguments of a program ask for. The programs take one word, or none; whatever else is given is answered by the usage line. No
// clause can say what an argument is, as it comes from outside: the tests run a list of arguments.
use std::env::{Env, FillError};

// The longest argument that is compared; a longer one is there, but is not the word.
const LONGEST: usize = 4096;

// The arguments are not those that the program takes.
#[derive(Clone, Copy, Debug, PartialEq, Eq)]
pub struct Usage;

// The program has an argument of this number. One that is longer than the buffer, or is no UTF-8, is there too.
fn is_there(rt: &impl Env, number: usize) -> bool {
    !matches!(rt.arg(number, &mut []), Err(FillError::NotPresent))
}

// No argument, or the one argument `word`.
pub fn asked(rt: &impl Env, word: &[u8]) -> Result<bool, Usage> {
    let mut argument = [0u8; LONGEST];
    match rt.arg(1, &mut argument) {
        Err(FillError::NotPresent) => Ok(false),
        Ok(length) if &argument[..length] == word && !is_there(rt, 2) => Ok(true),
        _ => Err(Usage),
    }
}

// No argument, of a program that takes none.
pub fn none_asked(rt: &impl Env) -> Result<(), Usage> {
    if is_there(rt, 1) { Err(Usage) } else { Ok(()) }
}
