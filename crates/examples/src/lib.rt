//! The definitions that the contracts use, read again by theorems: worked examples, which are tests of the code too,
//! what
//! meets the promises, and what does not.
#![tactic(auto)]

ghost use Rattle.examples.specs.Examples.{WorkedExamples};
ghost use Rattle.examples.specs.Met.{PromisesMet};
ghost use Rattle.examples.specs.Refused.{WrongAnswersRefused};

#[cfg(test)]
mod receivers;
#[cfg(test)]
mod transfers;

/// The nine examples of `specs/Examples.antt` come out as they say.
pub fn worked_examples()
    ensures { WorkedExamples }
{}

/// The promises are met, every kind of answer occurs, and a transfer ends: what `specs/Met.antt` says.
pub fn promises_are_met()
    ensures { PromisesMet }
{}

/// Wrong answers do not meet the promises, and right ones are the only ones: what `specs/Refused.antt` says.
pub fn promises_refuse_wrong_answers()
    ensures { WrongAnswersRefused }
{}
