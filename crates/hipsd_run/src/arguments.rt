//! The words of a command line, from the arguments of the program.
ghost use Rattle.std.specs.Prelude.{◌≡◌, ◌++◌, [], drop, IfOk, MatchResult};
ghost use Rattle.std.specs.Vec.Iter.{into_iter_items};

use std::alloc::{AllocError, Global};
use std::env;
use std::io::{self, ErrorKind};

/// The words of a command line, without the program's name; none where one is not UTF-8, since no command has such a word.
///
/// # Errors
///
/// Where there is no memory for the words, or the arguments can't be had for another cause.
pub fn words(alloc: Global, args: io::Result<env::Args>) -> io::Result<Vec<String>>
    ensures { MatchResult args (λ args. IfOk result (λ words. words.items ≡ drop 1 (into_iter_items args)))
        (λ _. IfOk result (λ words. words.items ≡ [])) }
{
    match args {
        Ok(args) => Ok(but_first(alloc, args)?),
        Err(error) if error.kind() == ErrorKind::InvalidData => Ok(Vec::new(alloc)),
        Err(error) => Err(error),
    }
}

// All but the first of them.
fn but_first(alloc: Global, args: env::Args) -> Result<Vec<String>, AllocError>
    ensures { IfOk result (λ words. words.items ≡ drop 1 (into_iter_items args)) }
{
    let mut args = args;
    let _name = args.next();
    let mut words = Vec::new(alloc);
    for word in args {
        words.push(word)?;
    }
    Ok(words)
}
