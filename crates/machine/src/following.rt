//! The machine on words runs programs as the model does: `specs/Related` says when words represent
//! a state, `proofs/Moves` proves that a step of the state is a move, a step of the words, and
//! `specs/Tracking` says the same of runs.

ghost use Rattle.machine.specs.Following.{EndsInWords, MovesAreSteps, ExitsAgree, StartsEndInWords, ExitsAreOutcomes};

/// A run from words that represent a state ends as the model's run from that state does, and each
/// of its moves is a step. From a start, what it leaves is the outcome.
pub fn words_follow_states()
    ensures ends { EndsInWords }
    ensures moves { MovesAreSteps }
    ensures exits { ExitsAgree }
    ensures starts { StartsEndInWords }
    ensures outcomes { ExitsAreOutcomes }
{}
