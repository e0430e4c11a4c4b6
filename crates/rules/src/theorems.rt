ghost use Rattle.rules.specs.Examples.{WorkedExamples, ShortcutsSpoil};
ghost use Rattle.rules.specs.Pinned.{AnswersPinned};

/// Distances and crossings worked out by hand are those of the three rules.
pub fn worked_examples()
    ensures { WorkedExamples }
{}

/// Crossings that are rounded down, distances that are counted in cells, and a rule that is capped give wrong answers.
pub fn shortcuts_spoil()
    ensures { ShortcutsSpoil }
{}

/// What a rule promises of its ceilings, costs and crossings leaves one answer to each question.
pub fn answers_are_pinned()
    ensures { AnswersPinned }
{}
