//! What holds of all words.

ghost use Rattle.cw_words.specs.WordLaws.{
  BurdenIsRead,
  CheckIsRead,
  EdgesAreRead,
  GainIsRead,
  GainTopIsRead,
  GreedyIsRead,
  GreedyLimitIsRead,
  LimitIsRead,
  PageIsRead,
  PageProcessorsAreRead,
  PageTopIsRead,
  PlainWordsAreRead,
  RefusalExamples,
  SpeedupIsRead,
  SpeedupProcessorsAreRead,
  TablesAreRead,
  TakenWordsAreRead,
  UsualNumbersAreWritten,
  WordExamples,
  WorkersAreRead,
  WordsAreReadOnce,
};

/// A word after `check` that starts with no hyphen is the source. Such words after `run`, `scale` or
/// `sites` are the source and the arguments, and `--limit`, `--burden` or `--workers` with a word before them is
/// that number, `--edges` that word; `scale --table` and `sites --table` read the others in the same way; after `gain` they are the same, and so is `--top`; after `greedy` they are the
/// processors, the source and the arguments, and `--limit` is the same; after `speedup` they are as after `run`, and
/// `--processors` with a word is that number; after `page` they are as after `gain` and `speedup`.
pub fn plain_words()
    ensures check { CheckIsRead }
    ensures usual { PlainWordsAreRead }
    ensures limited { LimitIsRead }
    ensures burdened { BurdenIsRead }
    ensures edged { EdgesAreRead }
    ensures tabled { TablesAreRead }
    ensures worked { WorkersAreRead }
    ensures gain { GainIsRead }
    ensures gain_top { GainTopIsRead }
    ensures greedy { GreedyIsRead }
    ensures greedy_limited { GreedyLimitIsRead }
    ensures speedup { SpeedupIsRead }
    ensures speedup_processors { SpeedupProcessorsAreRead }
    ensures page { PageIsRead }
    ensures page_processors { PageProcessorsAreRead }
    ensures page_top { PageTopIsRead }
{}

/// Words that are taken are read as a command with a source, arguments and numbers, and in one way.
pub fn read_words()
    ensures taken { TakenWordsAreRead }
    ensures once { WordsAreReadOnce }
{}

/// Words written out, and what they are read as or refused for; the words for the usual numbers, and
/// the numbers that they write.
pub fn written_words()
    ensures usual { UsualNumbersAreWritten }
    ensures read { WordExamples }
    ensures refused { RefusalExamples }
{}
