//! What holds of the definitions.

ghost use Rattle.instrumented.specs.Readings.{ReadsMeasure};

/// Readings. Take any image whose text is of words of 32 bits that never name x31, any list of acts, and an instrument that is
/// armed in its course and not dropped. Its readings for any harts together, minus those of an earlier moment since the arming at
/// which no hart was inside a trampoline, are what its plan measures between the two on the unpatched program, whose run is the
/// ticks of these acts.
pub fn reads_measure()
    ensures { ReadsMeasure }
{}
