// The words of `cross`.
ghost use Rattle.std.specs.Prelude.{MatchOption};
ghost use Rattle.sm_cross_command.specs.CrossView.{cross_said};
ghost use Rattle.sm_cross_command.specs.CrossWords.{CrossAsked, IsCrossForm};

use sm_asked_gateway::is_host;
use sm_asked_gateway::sm_asked_service::{models_before, protocol_named};
use sm_http::Protocol;
use sm_tree::Text;

/// How many words stand behind the model files.
const WORDS_BEHIND: usize = 6;

/// The words of `cross MODEL+ SERVICE FRONT BACK HOST BACKFILE OUTFILE`.
#[derive(Debug, Clone, Copy)]
pub struct CrossWords<'a> {
    /// The names of the model files.
    pub models: &'a [Text],
    /// The word for the service: any text, which may be the name of no service.
    pub service: &'a str,
    /// The protocol of the front.
    pub front: Protocol,
    /// The protocol of the back.
    pub back: Protocol,
    /// The host that requests to the back name.
    pub host: &'a str,
    /// The name of the file that the back's answers are read from.
    pub back_file: &'a str,
    /// The name of the file that the requests to the back are written to.
    pub out_file: &'a str,
}

/// The words of `cross`, where they have its form.
pub fn cross_words(words: &[Text]) -> Option<CrossWords<'_>>
    ensures { MatchOption result
        ((w : CrossAsked) → IsCrossForm words.now w → ⊥)
        (λ form. IsCrossForm words.now (cross_said form)) }
{
    let Some((models, behind)) = models_before(words, "cross", WORDS_BEHIND) else {
        return None;
    };
    let Some(front) = protocol_named(&behind[1]) else {
        return None;
    };
    let Some(back) = protocol_named(&behind[2]) else {
        return None;
    };
    let host = behind[3].as_str();
    if !is_host(host) {
        return None;
    }
    Some(CrossWords {
        models,
        service: behind[0].as_str(),
        front,
        back,
        host,
        back_file: behind[4].as_str(),
        out_file: behind[5].as_str(),
    })
}
