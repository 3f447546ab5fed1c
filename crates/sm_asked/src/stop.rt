// Why a command ends before its work is done.
ghost use Rattle.std.specs.Prelude.{◌≡◌, List, ℕ, IfOk};
ghost use Rattle.sm_asked.specs.Comes.{EndsWithLine, EndsWithLimit, EndsWithPattern};

use sm_tree::NoMemory;

/// Why a command ends before its work is done.
#[derive(Drop)]
pub enum CommandStop {
    /// The model, the shape or the body is refused; this line says why.
    Refused(Vec<u8>),
    /// The store refused a pattern; this line says which shape or member carries it.
    Pattern(Vec<u8>),
    /// A limit is passed; this line says which.
    Limit(Vec<u8>),
    /// A file or the input could not be read.
    ReadFault,
    /// The allocator refused the memory that is needed.
    NoMemory,
}

impl From<NoMemory> for CommandStop {
    ghost use Rattle.std.specs.Prelude.{◌≡◌};
    ghost use Rattle.sm_asked.specs.declared.stop.CommandStop.TheVariants.{NoMemory as no_memory};

    ghost from_gives = { λ _ stop. stop ≡ no_memory };

    fn from(_refusal: NoMemory) -> Self {
        CommandStop::NoMemory
    }
}

/// The command ends with this line, if there is memory for it.
pub fn refused(line: Result<Vec<u8>, NoMemory>) -> CommandStop
    ensures { (wanted : List ℕ) → IfOk line (λ printed. printed.items ≡ wanted) → EndsWithLine wanted result }
{
    match line {
        Ok(line) => CommandStop::Refused(line),
        Err(NoMemory) => CommandStop::NoMemory,
    }
}

/// The command ends at a pattern with this line, if there is memory for it.
pub fn refused_pattern(line: Result<Vec<u8>, NoMemory>) -> CommandStop
    ensures { (wanted : List ℕ) → IfOk line (λ printed. printed.items ≡ wanted) → EndsWithPattern wanted result }
{
    match line {
        Ok(line) => CommandStop::Pattern(line),
        Err(NoMemory) => CommandStop::NoMemory,
    }
}

/// The command ends at a limit with this line, if there is memory for it.
pub fn past(line: Result<Vec<u8>, NoMemory>) -> CommandStop
    ensures { (wanted : List ℕ) → IfOk line (λ printed. printed.items ≡ wanted) → EndsWithLimit wanted result }
{
    match line {
        Ok(line) => CommandStop::Limit(line),
        Err(NoMemory) => CommandStop::NoMemory,
    }
}
