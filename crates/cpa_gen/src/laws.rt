//! What holds of all generated systems and generated traces. The calls do nothing.

ghost use Rattle.cpa_gen.specs.Laws.{EventsAreAHundred, EventsAreFew, EventsAreInTime, MadeSystemsKeepRules, MadeTracesObey, MadeTracesReplay};

/// A generated system keeps the rules of systems.
pub fn made_systems_have_laws()
    ensures { MadeSystemsKeepRules }
{}

/// A source has the events whose number is below the most and that come, with the jitter, by the last time of a trace. The
/// most are 100 in a small system, and in no system more than all streams together may have jobs. A made trace obeys its
/// system, and can be replayed.
pub fn made_traces_have_laws()
    ensures events { EventsAreInTime }
    ensures small { EventsAreAHundred }
    ensures few { EventsAreFew }
    ensures obey { MadeTracesObey }
    ensures replay { MadeTracesReplay }
{}
