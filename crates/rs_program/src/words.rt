ghost use Rattle.std.specs.Prelude.{◌≡◌, ◌≢◌, [], IfErr, IfOk, IsErr, IsOkAnd, drop, map, string_bytes};
ghost use Rattle.std.specs.IoError.{error_kind};
ghost use Rattle.std.specs.Vec.Iter.{into_iter_items};

use rs_value::{Memory, Text};
use std::alloc::Global;
use std::env::Args;
use std::io::{self, ErrorKind};

/// The words of the command line, of which `args` is what the system answers. There are none where one isn't UTF-8.
///
/// # Errors
///
/// - `Memory`: where the system had none for the arguments, or at any call.
pub fn command_line(alloc: Global, args: io::Result<Args>) -> Result<Vec<Text>, Memory>
    ensures words { IfOk args (λ args.
        IfOk result (λ words. words.items ≡ map string_bytes (drop 1 (into_iter_items args)))) }
    ensures no_text { IfErr args (λ error.
        error_kind error ≢ ErrorKind.OutOfMemory → IsOkAnd result (λ words. words.items ≡ [])) }
    ensures no_memory { IfErr args (λ error.
        error_kind error ≡ ErrorKind.OutOfMemory → IsErr result) }
{
    match args {
        Ok(args) => words_of(alloc, args),
        Err(error) => match error.kind() {
            ErrorKind::OutOfMemory => Err(Memory),
            _ => Ok(Vec::new(alloc)),
        },
    }
}

/// The words behind the program's name, which is the first argument.
fn words_of(alloc: Global, args: Args) -> Result<Vec<Text>, Memory>
    ensures { IfOk result (λ words. words.items ≡ map string_bytes (drop 1 (into_iter_items args))) }
{
    let mut words = Vec::new(alloc);
    for word in args.skip(1) {
        words.push(Text::from(word))?;
    }
    Ok(words)
}
