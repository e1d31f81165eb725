//! What holds of the limits of programs.

ghost use Rattle.elf_form.specs.Limits.{LimitsAre};

/// The limits that contracts name are these.
pub fn limits_are()
    ensures { LimitsAre }
{}
