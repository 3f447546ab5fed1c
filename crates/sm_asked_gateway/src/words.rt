// Words that tell of a gateway.
ghost use Rattle.std.specs.Prelude.{◌≡◌, ◌↔◌, List, ℕ, IsTrue, MatchOption, length};
ghost use Rattle.std.specs.List.{list_all};
ghost use Rattle.sm_gateway.specs.GatewayData.{IsHost, is_visible as is_visible_byte};
ghost use Rattle.sm_asked_gateway.specs.GatewayView.{gateway_asked};
ghost use Rattle.sm_asked_gateway.specs.GatewayWords.{AsksGateway, GatewayAsked};

use sm_asked_service::{models_before, protocol_named};
use sm_http::Protocol;
use sm_tree::Text;

/// How many words tell of a gateway behind the model files.
pub const GATEWAY_WORDS: usize = 4;

/// The words `MODEL+ SERVICE FRONT BACK HOST`, which tell of a gateway.
#[derive(Debug, Clone, Copy)]
pub struct GatewayWords<'a> {
    /// The names of the model files.
    pub models: &'a [Text],
    /// The word for the service: any text, which may be the name of no service.
    pub service: &'a str,
    /// The protocol of the front.
    pub front: Protocol,
    /// The protocol of the back.
    pub back: Protocol,
    /// The host that requests to the back name.
    pub host: &'a str,
}

/// What the words tell of a gateway, and so many words behind that, where they are this command's name, `MODEL+ SERVICE FRONT BACK HOST`,
/// and those.
pub fn gateway_words<'a>(
    words: &'a [Text],
    name: &str,
    more: u32,
) -> Option<(GatewayWords<'a>, &'a [Text])>
    ensures { MatchOption result
        ((w : GatewayAsked) (behind : List (List ℕ)) → length behind ≡ more → AsksGateway words.now name.now w behind → ⊥)
        (λ p. AsksGateway words.now name.now (gateway_asked p.0) p.1.now × (length p.1.now ≡ more)) }
{
    let Some((models, behind)) = models_before(words, name, GATEWAY_WORDS + more as usize) else {
        return None;
    };
    let Some(front) = protocol_named(&behind[1]) else {
        return None;
    };
    let Some(back) = protocol_named(&behind[2]) else {
        return None;
    };
    let host = behind[3].as_str();
    if !is_host(host) {
        return None;
    }
    let told = GatewayWords {
        models,
        service: behind[0].as_str(),
        front,
        back,
        host,
    };
    Some((told, behind.split_at(GATEWAY_WORDS).1))
}

/// Whether a word may name a host: 1 to 255 visible bytes of ASCII.
pub fn is_host(word: &str) -> bool
    ensures { IsTrue result ↔ IsHost word.now }
{
    let bytes = word.as_bytes();
    !bytes.is_empty() && bytes.len() < 256 && are_visible(bytes)
}

fn are_visible(bytes: &[u8]) -> bool
    ensures { result ≡ list_all is_visible_byte bytes.now }
{
    bytes.iter().all(|byte| is_visible(*byte))
}

fn is_visible(byte: u8) -> bool
    ensures { result ≡ is_visible_byte byte }
{
    33 <= byte && byte <= 126
}
