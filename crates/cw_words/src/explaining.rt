//! The word that asks for explanations.

ghost use Rattle.std.specs.Prelude.{◌≡◌, map, string_bytes};
ghost use Rattle.cw_words.specs.Explaining.{asks_explain, without_explain};

/// Removes each word `--explain` before the first word `--`, and returns whether there was one. The other words keep
/// their order, and each moves at most once.
pub fn take_explain(words: &mut Vec<String>) -> bool
    ensures asked { result ≡ asks_explain (map string_bytes words.old.items) }
    ensures left { map string_bytes words.new.items
        ≡ without_explain (map string_bytes words.old.items) }
{
    let mut asked = false;
    let mut behind = false;
    let mut kept = 0;
    let mut place = 0;
    while place < words.len() {
        let ends = words[place].as_str() == "--";
        let asks = words[place].as_str() == "--explain";
        behind |= ends;
        if behind | !asks {
            words.swap(kept, place);
            kept += 1;
        } else {
            asked = true;
        }
        place += 1;
    }
    words.truncate(kept);
    asked
}
