//! What follows from the definitions alone: functions without a body that computes, whose contracts are the laws.

ghost use Rattle.bom_explode.specs.Laws.{AnswersAgree, NeedsAgree, NeedsExist};

/// On a bill without a circle some needs solve the equation of needs.
pub fn needs_exist()
    ensures { NeedsExist }
{}

/// On a bill without a circle no two solutions of the equation of needs differ at a name.
pub fn needs_agree()
    ensures { NeedsAgree }
{}

/// A bill has one answer: of two that are not want of memory both are the same. So each comes exactly where its facts hold.
pub fn answers_agree()
    ensures { AnswersAgree }
{}
