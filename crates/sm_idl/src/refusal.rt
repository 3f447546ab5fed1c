// Why a text has no statements.
use sm_lex::LexRefusal;
use sm_tree::NoMemory;

/// Why a text is no model in the IDL that is read here. Places count bytes from 0.
#[derive(Debug, Clone, Copy, PartialEq, Eq, Drop)]
pub enum IdlRefusal {
    /// The text has no tokens, for this reason, which is never `NoMemory`.
    Lex(LexRefusal),
    /// The place of the first token through which the grammar isn't begun, or the text's length, where it ends too soon.
    Syntax(u64),
    /// The control `version` isn't there, or is neither `"2"` nor `"2.0"`.
    Version,
    /// The allocator refused the memory that the statements need.
    NoMemory,
}

impl From<NoMemory> for IdlRefusal {
    ghost use Rattle.std.specs.Prelude.{◌≡◌};
    ghost use Rattle.sm_idl.specs.declared.refusal.IdlRefusal.TheVariants.{NoMemory as no_memory};

    ghost from_gives = { λ _ refusal. refusal ≡ no_memory };

    fn from(_error: NoMemory) -> Self {
        IdlRefusal::NoMemory
    }
}
