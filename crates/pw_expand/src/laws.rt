ghost use Rattle.pw_expand.specs.Laws.{OutputsAgree};

/// What holds of every output: it is the text of the net world that the schedule's events make, and
/// in it no two systems of a transaction disagree. A committed one is prepared or committed at each
/// of its other systems (docs/design/SYSTEMS.md).
pub fn expand_laws()
    ensures { OutputsAgree }
{}
