// The signs of a selector, and which of them stands at the start of some bytes.
ghost use Rattle.std.specs.Prelude.{◌≡◌};
ghost use Rattle.sm_select.specs.steps.Signs.{goes_on_with_run, sign_ends, sign_text, stands};

use crate::parser_text::RunBytes;
use crate::selector::SelectorOp;
use sm_bytes::ByteClass;

/// A terminal of the grammar that isn't a word.
#[derive(Debug, Clone, Copy, PartialEq, Eq, Drop)]
pub enum Sign {
    Star,
    Greater,
    Smaller,
    Tilde,
    OpenNames,
    CloseNames,
    OpenPath,
    ClosePath,
    OpenIs,
    OpenNot,
    OpenTest,
    Close,
    Comma,
    Bar,
    IdNamespace,
    IdName,
    IdMember,
    TraitBar,
    Op(SelectorOp),
}

/// A form that holds selectors.
#[derive(Debug, Clone, Copy, PartialEq, Eq, Drop)]
pub enum SelectorForm {
    Is,
    Not,
    Test,
}

impl Sign {
    /// The bytes of the sign.
    pub fn text(self) -> &'static str
        ensures { result.now ≡ sign_text self }
    {
        match self {
            Sign::Star => "*",
            Sign::Greater => ">",
            Sign::Smaller => "<",
            Sign::Tilde => "~>",
            Sign::OpenNames => "-[",
            Sign::CloseNames => "]->",
            Sign::OpenPath => "[",
            Sign::ClosePath => "]",
            Sign::OpenIs => ":is(",
            Sign::OpenNot => ":not(",
            Sign::OpenTest => ":test(",
            Sign::Close => ")",
            Sign::Comma => ",",
            Sign::Bar => "|",
            Sign::IdNamespace => "id|namespace",
            Sign::IdName => "id|name",
            Sign::IdMember => "id|member",
            Sign::TraitBar => "trait|",
            Sign::Op(SelectorOp::Equal) => "=",
            Sign::Op(SelectorOp::Unequal) => "!=",
            Sign::Op(SelectorOp::Starts) => "^=",
            Sign::Op(SelectorOp::Ends) => "$=",
            Sign::Op(SelectorOp::Contains) => "*=",
        }
    }
}

/// Whether the sign stands first, and may end there.
#[tactic(auto, using(crate::proofs::SignTexts::opens_is))]
pub fn stands(sign: Sign, bytes: &[u8]) -> bool
    ensures { result ≡ stands sign bytes.now }
{
    let text = sign.text().as_bytes();
    if bytes.starts_with(text) {
        may_end(sign, &bytes[text.len()..])
    } else {
        false
    }
}

// Whether the sign may end before these bytes.
#[tactic(auto, using(crate::proofs::SignTexts::opens_is))]
fn may_end(sign: Sign, behind: &[u8]) -> bool
    ensures { result ≡ sign_ends sign behind.now }
{
    match sign {
        Sign::Smaller => !behind.starts_with(b"-["),
        Sign::OpenPath => !behind.starts_with(b"@"),
        Sign::IdNamespace | Sign::IdName | Sign::IdMember => !goes_on(behind),
        Sign::Star
        | Sign::Greater
        | Sign::Tilde
        | Sign::OpenNames
        | Sign::CloseNames
        | Sign::ClosePath
        | Sign::OpenIs
        | Sign::OpenNot
        | Sign::OpenTest
        | Sign::Close
        | Sign::Comma
        | Sign::Bar
        | Sign::TraitBar
        | Sign::Op(_) => true,
    }
}

/// Whether a run goes on with these bytes.
pub fn goes_on(behind: &[u8]) -> bool
    ensures { result ≡ goes_on_with_run behind.now }
{
    match behind {
        [byte, ..] => RunBytes::has(*byte),
        [] => false,
    }
}
