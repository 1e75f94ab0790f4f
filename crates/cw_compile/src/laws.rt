//! Laws of all bytes.

ghost use Rattle.cw_compile.specs.Laws.{CompiledAreNotRefused, HaveOneProgram, HaveOneRefusal};

/// States that bytes are a source of at most one program. So a report belongs to the program that the bytes mean.
pub fn one_program()
    ensures { HaveOneProgram }
{
    cw_lex::laws::one_cut();
    cw_parse::laws::one_tree();
}

/// States that bytes that compile are rejected only if memory runs out, and that bytes are rejected for one reason in
/// one line, or because memory runs out. So `compile` returns code exactly if the bytes compile, and otherwise the
/// only fault for which they are rejected, in its only line, unless memory runs out.
pub fn one_answer()
    ensures compiled { CompiledAreNotRefused }
    ensures refused { HaveOneRefusal }
{
    cw_lex::laws::one_cut();
    cw_lex::laws::no_cut_with_a_fault();
    cw_lex::laws::one_fault();
    cw_parse::laws::one_tree();
    cw_parse::laws::no_tree_with_a_fault();
}
