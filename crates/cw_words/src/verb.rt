//! The words that name commands.

ghost use Rattle.std.specs.Prelude.{◌≡◌};
ghost use Rattle.cw_words.specs.Requests.{IsVerbNamed, mode_with};

use crate::asked::Mode;

/// A word that names a command.
#[derive(Clone, Copy, Debug, PartialEq, Eq)]
pub enum Verb {
    Check,
    Run,
    Scale,
    Sites,
    Gain,
    Greedy,
    Speedup,
    Page,
}

impl Verb {
    /// Returns the options that the command accepts, as a list in words.
    pub fn options(self) -> &'static str {
        match self {
            Verb::Check => "--explain and --help",
            Verb::Run => "--limit, --burden, --edges, --workers, --explain and --help",
            Verb::Scale | Verb::Sites => {
                "--limit, --burden, --edges, --workers, --table, --explain and --help"
            }
            Verb::Gain => {
                "--limit, --burden, --edges, --workers, --table, --top, --explain and --help"
            }
            Verb::Greedy => "--limit, --workers, --explain and --help",
            Verb::Speedup => {
                "--limit, --burden, --edges, --workers, --table, --processors, --explain and --help"
            }
            Verb::Page => {
                "--limit, --burden, --edges, --workers, --top, --processors, --explain and --help"
            }
        }
    }
}

/// Returns the verb of this name, if there is one.
pub fn verb_named(name: &str) -> Option<Verb>
    ensures { IsVerbNamed name.now result }
{
    match name {
        "check" => Some(Verb::Check),
        "run" => Some(Verb::Run),
        "scale" => Some(Verb::Scale),
        "sites" => Some(Verb::Sites),
        "gain" => Some(Verb::Gain),
        "greedy" => Some(Verb::Greedy),
        "speedup" => Some(Verb::Speedup),
        "page" => Some(Verb::Page),
        _ => None,
    }
}

/// Returns the mode that a verb asks for: a schedule on `processors`, speedups up to `up_to` processors, the gains of at
/// most `top` functions, or a page with both. Other modes have no number.
pub fn mode_of(verb: Verb, processors: u64, up_to: u64, top: u64) -> Mode
    ensures { result ≡ mode_with verb processors up_to top }
{
    match verb {
        Verb::Check => Mode::Check,
        Verb::Run => Mode::Run,
        Verb::Scale => Mode::Scale,
        Verb::Sites => Mode::Sites,
        Verb::Gain => Mode::Gain(top),
        Verb::Greedy => Mode::Greedy(processors),
        Verb::Speedup => Mode::Speedup(up_to),
        Verb::Page => Mode::Page {
            top,
            processors: up_to,
        },
    }
}
