//! What the words and the answers are, as statements that the prover checks. The functions do nothing.
ghost use Rattle.xds_program.specs.Laws.{AnswersAreFirstPolls, AnswerWordsAsk, AskOneTask, CheckWordsAsk, FaultlessWordsAsk, PlayWordsAsk};

/// Words ask for one task at most; and of the words that name `answer`, `play` or `check`, `clap` finds nothing wrong
/// exactly with those that ask for one.
pub fn words_ask_for_one_task()
    ensures one { AskOneTask }
    ensures faultless { FaultlessWordsAsk }
{}

/// Which words ask for an answer, in plain words; and plain words that ask for a script to be played, and for a trace to be checked.
pub fn plain_words_ask()
    ensures answer { AnswerWordsAsk }
    ensures play { PlayWordsAsk }
    ensures check { CheckWordsAsk }
{}

/// An answer is what a session's first poll gives, once it took the request.
pub fn answers_are_first_polls()
    ensures { AnswersAreFirstPolls }
{}
