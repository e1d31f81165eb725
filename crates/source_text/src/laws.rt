//! A law of the text: what holds of the definitions, whatever the profile.

ghost use Rattle.source_text.specs.Laws.{SourcesAddUp};

/// The sources of a procedure's words are by ascending unit, file and line, each once. Any of them have the ticks of the words that come
/// from them, and all together those of the procedure.
pub fn sources_add_up()
    ensures { SourcesAddUp }
{}
