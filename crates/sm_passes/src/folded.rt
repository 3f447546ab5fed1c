// Texts in small letters.
ghost use Rattle.std.specs.Prelude.{◌≡◌, IfOk};
ghost use Rattle.sm_passes.specs.Folded.{folded};

use sm_tree::{NoMemory, Text};
use std::alloc::Global;

/// A text in small letters.
pub fn folded(alloc: Global, text: &str) -> Result<Text, NoMemory>
    ensures { IfOk result (λ t. t ≡ folded text.now) }
{
    Ok(Text::new(text.to_ascii_lowercase(alloc)?))
}
