// Words of commands over a service.
ghost use Rattle.std.specs.Prelude.{◌≡◌, ◌∷◌, [], List, ℕ, MatchOption, length};
ghost use Rattle.sm_http.specs.declared.message.Protocol.{Protocol as a_protocol};
ghost use Rattle.sm_asked_service.specs.ServiceWords.{AreBehindModels, protocol_word as the_protocol_word};

use sm_asked_shape::sm_asked::is_word;
use sm_http::Protocol;
use sm_tree::Text;

/// The word that names a protocol.
pub fn protocol_word(protocol: Protocol) -> &'static str
    ensures { result.now ≡ the_protocol_word protocol }
{
    match protocol {
        Protocol::AwsJson10 => "awsJson1_0",
        Protocol::AwsJson11 => "awsJson1_1",
        Protocol::RestJson1 => "restJson1",
        Protocol::RpcV2Cbor => "rpcv2Cbor",
    }
}

/// The protocol that a word names.
pub fn protocol_named(word: &Text) -> Option<Protocol>
    ensures { MatchOption result
        ((protocol : a_protocol) → word.now ≡ the_protocol_word protocol → ⊥)
        (λ protocol. word.now ≡ the_protocol_word protocol) }
{
    match word.as_str() {
        "awsJson1_0" => Some(Protocol::AwsJson10),
        "awsJson1_1" => Some(Protocol::AwsJson11),
        "restJson1" => Some(Protocol::RestJson1),
        "rpcv2Cbor" => Some(Protocol::RpcV2Cbor),
        _ => None,
    }
}

/// The model files and so many words behind them, where the words are this command's name, one file or more, and those.
pub fn models_before<'a>(
    words: &'a [Text],
    name: &str,
    count: usize,
) -> Option<(&'a [Text], &'a [Text])>
    ensures { MatchOption result
        ((models behind : List (List ℕ)) → length behind ≡ count → AreBehindModels words.now name.now models behind → ⊥)
        (λ p. AreBehindModels words.now name.now p.0.now p.1.now × (length p.1.now ≡ count)) }
{
    let Some((command, rest)) = first_and_rest(words) else {
        return None;
    };
    if !is_word(command, name) {
        return None;
    }
    if rest.len() <= count {
        return None;
    }
    Some(rest.split_at(rest.len() - count))
}

// The first word, and those behind it.
fn first_and_rest(words: &[Text]) -> Option<(&Text, &[Text])>
    ensures { MatchOption result (words.now ≡ []) (λ p. words.now ≡ p.0.now ∷ p.1.now) }
{
    words.split_first()
}
