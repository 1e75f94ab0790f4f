//! The option for the edges of a spawn on which a burden is charged.

ghost use Rattle.std.specs.Prelude.{◌≡◌};
ghost use Rattle.clap.specs.Words.{rows_of, found_of};
ghost use Rattle.cw_words.specs.Requests.{edges_text, IsEdgesNamed};

use clap::ArgMatches;
use cw_model::burden::Edges;

/// The name of the option, without its hyphens.
pub const EDGES: &str = "edges";

/// The default value of the option.
pub const USUAL_EDGES: &str = "spawn";

/// Returns the edges that a word names, if it names any.
pub fn edges_named(word: &str) -> Option<Edges>
    ensures { IsEdgesNamed word.now result }
{
    match word {
        "spawn" => Some(Edges::Spawn),
        "both" => Some(Edges::Both),
        _ => None,
    }
}

/// Returns the edges that the matches give, or the default edges. Returns `None` if the given word names no edges.
pub fn edges_of(given: &ArgMatches<'_>) -> Option<Edges>
    ensures { IsEdgesNamed (edges_text (rows_of (found_of given.now))) result }
{
    edges_named(given.get_str(EDGES).unwrap_or(USUAL_EDGES))
}
