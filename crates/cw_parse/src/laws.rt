//! Laws of the grammar. Each law is the contract of a function that does nothing.

ghost use Rattle.std.specs.Prelude.{ℕ, List};
ghost use Rattle.cw_model.specs.declared.token.Token.{Token};
ghost use Rattle.cw_parse.specs.Parsed.{HasOneTree, FaultsAreOne};

/// States that tokens have at most one tree. So, if no token exceeds a limit, `parse` returns a tree exactly if there
/// is one, unless memory runs out.
pub fn one_tree()
    ensures { (text : List ℕ) (ts : List Token) → HasOneTree text ts }
{}

/// States that tokens with a fault have no tree, and that the fault has one line. So, if no token exceeds a limit,
/// `parse` returns `Syntax` exactly if there is no tree, at the only line of the fault, unless memory runs out.
pub fn no_tree_with_a_fault()
    ensures { (text : List ℕ) (ts : List Token) → FaultsAreOne text ts }
{}
