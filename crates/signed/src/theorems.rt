ghost use Rattle.signed.specs.Theorems.{NegativeTurnsSign};
ghost use Rattle.signed.specs.Examples.{AllExamples};

/// The half-grid of the negative marks the same places, and its signed distances are the picture's with the sign turned.
pub fn negative_turns_sign()
    ensures { NegativeTurnsSign }
{}

/// All worked examples in one: the distances and crossings of the three rules, and the signed field of four cells in a
/// square, the first of them marked, whose numbers are -1, 1, 1 and 2.
pub fn worked_examples()
    ensures { AllExamples }
{}
