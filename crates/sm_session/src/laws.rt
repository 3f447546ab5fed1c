// Laws of sessions, each the contract of a function that does nothing.
ghost use Rattle.sm_session.specs.Turns.{TurnBy};
ghost use Rattle.sm_session.specs.Laws.{HasOneSession, HasSomeSession};

use crate::responder::Responder;

/// What a responder makes of the bytes of the front and of the back is one session at most.
pub fn one_session<R: Responder>(responder: &R)
    ensures { HasOneSession (TurnBy (R.asking responder.now) (R.replying responder.now)) }
{
    sm_http::laws::one_answer();
    let _these = responder;
}

/// No bytes of the front and of the back are without a session.
pub fn some_session<R: Responder>(responder: &R)
    ensures { HasSomeSession (TurnBy (R.asking responder.now) (R.replying responder.now)) }
{
    sm_http::laws::some_answer();
    let _these = responder;
}
