//! The laws of words: each function has one for its contract.
ghost use Rattle.words.specs.Cuts.{WordsMean};

/// The words of a text are those that it is cut into.
pub fn words_mean()
    ensures { WordsMean }
{}
