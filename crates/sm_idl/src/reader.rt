// The tokens of a text that are left, and why reading stops.
ghost use Rattle.std.specs.Prelude.{◌≡◌, ◌≤◌, ◌∷◌, List, drop};
ghost use Rattle.std.specs.Str.{IsCharBoundary};
ghost use Rattle.sm_lex.specs.declared.token.Token.{Token};
ghost use Rattle.sm_idl.specs.steps.Cuts.{AreCuts};

use sm_lex::Token;

/// Why reading stops.
#[derive(Debug, Clone, Copy, PartialEq, Eq, Drop)]
pub(crate) enum ReadStop {
    /// The next token, or the end of the tokens, goes on with nothing.
    Syntax,
    /// The allocator refused.
    NoMemory,
}

/// A reader of a text's tokens. After it stopped, the token that goes on with nothing is the next one.
#[derive(Debug, Clone, Copy, Drop)]
pub(crate) struct Reader<'t, 'a> {
    /// The text.
    pub(crate) text: &'a str,
    /// The place behind the token that was taken last.
    pub(crate) behind: u64,
    /// The tokens.
    pub(crate) tokens: &'t [Token<'a>],
    /// How many of them were taken.
    pub(crate) at: usize,
    pub(crate) ghost cuts: { AreCuts text.now tokens.now },
    pub(crate) ghost boundary: { IsCharBoundary text.now behind },
    pub(crate) ghost order: { (t : Token) (r : List Token) → drop at tokens.now ≡ t ∷ r → behind ≤ t.start },
}
