// Laws of tokens, each the contract of a function whose body is empty.
ghost use Rattle.sm_lex.specs.Laws.{OneReading, OneRefusal, SpelledOrRefused, OneDocumentation};

/// A text is spelled by at most one list of tokens. So `tokens` gives *the* tokens.
pub fn one_reading()
    ensures { OneReading }
{}

/// A text is refused for at most one reason.
pub fn one_refusal()
    ensures { OneRefusal }
{}

/// A text that is refused is spelled by no tokens.
pub fn spelled_or_refused()
    ensures { SpelledOrRefused }
{}

/// What the documentation comments before a text's first token say is determined. So `documentation` gives *the* text.
pub fn one_documentation()
    ensures { OneDocumentation }
{}
