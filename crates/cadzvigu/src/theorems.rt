ghost use Rattle.cadzvigu.specs.Theorems.{StatusesDiffer};

/// The status number tells how a call ended: two ways to end have two numbers.
pub fn statuses_differ()
    ensures { StatusesDiffer }
{}
