// The words of `serve`.
ghost use Rattle.std.specs.Prelude.{◌≡◌, ◌==◌, ℕ, MatchOption, slice_index};
ghost use Rattle.sm_serve.specs.ServeView.{serve_said};
ghost use Rattle.sm_serve.specs.ServeWords.{IsLinkCount, IsServeForm, ServeAsked};
ghost use Rattle.sm_serve.specs.steps.WordSteps.{IsWithin};

use sm_asked_gateway::{GatewayWords, gateway_words};
use sm_tree::Text;

/// The most links that one run may serve.
pub const MOST_LINKS: u64 = 1_000_000;

/// How many words stand behind those that tell of the gateway.
const WORDS_BEHIND: u32 = 3;

/// The words of `serve MODEL+ SERVICE FRONT BACK HOST LISTEN CONNECT COUNT`.
#[derive(Debug, Clone, Copy)]
pub struct ServeWords<'a> {
    /// What tells of the gateway.
    pub gateway: GatewayWords<'a>,
    /// The address to listen on.
    pub listen: &'a str,
    /// The address of the back.
    pub connect: &'a str,
    /// How many links are served.
    pub count: u64,
}

/// The words of `serve`, where they have its form.
pub fn serve_words(words: &[Text]) -> Option<ServeWords<'_>>
    ensures { MatchOption result
        ((w : ServeAsked) → IsServeForm words.now w → ⊥)
        (λ form. IsServeForm words.now (serve_said form)) }
{
    let Some((gateway, behind)) = gateway_words(words, "serve", WORDS_BEHIND) else {
        return None;
    };
    let Some(count) = link_count(behind[2].as_str()) else {
        return None;
    };
    Some(ServeWords {
        gateway,
        listen: behind[0].as_str(),
        connect: behind[1].as_str(),
        count,
    })
}

// The number of links that a word asks for: digits alone, and in range.
fn link_count(word: &str) -> Option<u64>
    ensures { MatchOption result ((n : ℕ) → IsLinkCount word.now n → ⊥) (λ n. IsLinkCount word.now n) }
{
    if has_plus(word) {
        return None;
    }
    match word.parse::<u64>() {
        Ok(count) => within(count),
        Err(_) => None,
    }
}

// Whether a plus stands first.
fn has_plus(word: &str) -> bool
    ensures { result ≡ (slice_index word.now 0 == 43) }
{
    let bytes = word.as_bytes();
    !bytes.is_empty() && bytes[0] == b'+'
}

// The number, where it is one of links.
fn within(count: u64) -> Option<u64>
    ensures { IsWithin count result }
{
    if 0 < count && count <= MOST_LINKS {
        return Some(count);
    }
    None
}
