//! The program's version.

ghost use Rattle.std.specs.Prelude.{◌≡◌, map, string_bytes};
ghost use Rattle.cw_words.specs.Explaining.{IsVersion, asks_version};

use crate::asked::Said;
use cw_text::Fault;
use std::alloc::Global;

/// The version, without the name of the program.
pub const RELEASE: &str = "0.1.0";

/// The output of `--version` and `-V`.
const VERSION: &str = "cilkwork 0.1.0\n";

/// Returns whether the words are `--version` or `-V` alone.
pub fn is_version(words: &[String]) -> bool
    ensures { result ≡ asks_version (map string_bytes words.now) }
{
    words.len() == 1 && (words[0].as_str() == "--version" || words[0].as_str() == "-V")
}

/// Returns the version, as text for standard output, or `Fault::Memory` if there is no memory for the text.
pub fn version(alloc: Global) -> Said
    ensures { IsVersion result }
{
    match String::from_str(alloc, VERSION) {
        Ok(text) => Said::Help(text),
        Err(_) => Said::Fault(Fault::Memory),
    }
}
