//! The front end in one call: from bytes to code.

ghost use Rattle.std.specs.Prelude.{◌≡◌, IfOk, MatchResult, map};
ghost use Rattle.cw_code.specs.Heads.{head_view};
ghost use Rattle.cw_tree.specs.ResolvedView.{function_of};
ghost use Rattle.cw_code.specs.Code.{code_view};
ghost use Rattle.cw_compile.specs.Compiled.{IsCompiled, IsMade, head_of};
ghost use Rattle.cw_compile.specs.Sources.{IsRejected};

use cw_code::head::Head;
use cw_gen::generate;
use cw_lex::lex;
use cw_loops::laws::derived_is_source_like;
use cw_loops::lower;
use cw_model::laws::derived_sites_are_numbered;
use cw_own::own;
use cw_parse::parse;
use cw_runnable::verified::Verified;
use cw_text::{Fault, Source};
use cw_tree::resolved::Function;
use cw_types::check;
use cw_verify::verify::verify;
use std::alloc::{AllocError, Global};

/// Holds the result of compiling a source.
#[derive(Debug, Drop)]
pub struct Compiled {
    /// The code of the program.
    pub code: Verified,
    /// The heads of the functions, in order.
    pub heads: Vec<Head>,
}

/// Compiles the program whose source these bytes are. On all arguments and within all limits, the code computes what
/// the program's serial elision computes.
///
/// # Errors
///
/// The first stage that rejects the bytes decides, with its line: `Size` for too many bytes, otherwise `Lexical` for
/// a byte that is not ASCII; `Lexical` and `Size` for tokens; `Size` for too many open brackets or too many tokens in
/// a row, otherwise `Syntax`; `Size` for the parts of the program, and `Types`; `Ownership`; `Size` for too many
/// loops, at the line of the 4,097th by place; and `Size` for the code, at line 1. `Memory` if memory runs out.
pub fn compile(alloc: Global, bytes: &[u8]) -> Result<Verified, Fault>
    ensures { MatchResult result
        (λ made. IsCompiled bytes.now (code_view made.code)) (IsRejected bytes.now) }
{
    match compile_with_heads(alloc, bytes) {
        Ok(made) => Ok(made.code),
        Err(fault) => Err(fault),
    }
}

/// Compiles like `compile`, and also returns the heads of the program's functions.
///
/// # Errors
///
/// Returns the faults of `compile`.
pub fn compile_with_heads(alloc: Global, bytes: &[u8]) -> Result<Compiled, Fault>
    ensures { MatchResult result (IsMade bytes.now) (IsRejected bytes.now) }
{
    derived_sites_are_numbered();
    derived_is_source_like();
    let source = Source::read(alloc, bytes)?;
    let tokens = lex(alloc, &source)?;
    let ast = parse(alloc, &source, tokens.as_slice())?;
    drop(tokens);
    drop(source);
    let typed = check(alloc, ast)?;
    let owned = own(alloc, typed)?;
    let core = lower(alloc, owned)?;
    let code = generate(alloc, &core)?;
    let heads = heads_of(alloc, &core.source.typed.tree.functions)?;
    drop(core);
    let verified = verify(alloc, code)?;
    Ok(Compiled {
        code: verified,
        heads,
    })
}

// Returns the heads of the functions, in order.
fn heads_of(alloc: Global, functions: &[Function]) -> Result<Vec<Head>, AllocError>
    ensures { IfOk result
        (λ heads. map head_view heads.items ≡ map head_of (map function_of functions.now)) }
{
    let mut heads = Vec::with_capacity(alloc, functions.len())?;
    for function in functions {
        let name = function.name.share(alloc)?;
        heads.push(Head {
            name,
            line: function.line,
        })?;
    }
    Ok(heads)
}
