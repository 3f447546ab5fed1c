// What holds of crossings and of sessions, over the definitions alone. These calls do nothing.
ghost use Rattle.sm_http.specs.declared.message.Protocol.{Protocol};
ghost use Rattle.sm_protocols.specs.messages.Crossings.{CrossesOrRefused};
ghost use Rattle.sm_protocols.specs.messages.IsForm.{IsForm};
ghost use Rattle.sm_protocols.specs.Forms.{form_of};
ghost use Rattle.sm_gateway.specs.Laws.{OneCrossing, OneSession, SomeCrossing, SomeSession, ValuesKept};

/// Each protocol is a form of messages.
pub fn each_is_form()
    ensures { (p : Protocol) → IsForm (form_of p) }
{
    sm_protocols::laws::each_is_form();
}

/// A message crosses exactly where its operation is served at both ends, it spells a value, its body nests at most 100 levels where it is
/// read as the text of a tree, and the far end carries the value.
pub fn crosses_or_refused()
    ensures { (near far : Protocol) → CrossesOrRefused (form_of near) (form_of far) }
{
    each_is_form();
}

/// A message crosses in one way at most, or is refused for one reason.
pub fn one_crossing()
    ensures { (near far : Protocol) → OneCrossing (form_of near) (form_of far) }
{
    each_is_form();
}

/// And no message comes to nothing.
pub fn some_crossing()
    ensures { (near far : Protocol) → SomeCrossing (form_of near) (form_of far) }
{
    each_is_form();
}

/// What crosses goes out as the one message that is written for the value that it spells, and both spell that value alone.
pub fn values_kept()
    ensures { (near far : Protocol) → ValuesKept (form_of near) (form_of far) }
{
    each_is_form();
}

/// Bytes of the front and of the back come to one session at most.
pub fn one_session()
    ensures { OneSession }
{
    each_is_form();
    sm_http::laws::one_answer();
}

/// And none are without one.
pub fn some_session()
    ensures { SomeSession }
{
    each_is_form();
    sm_http::laws::some_answer();
}
