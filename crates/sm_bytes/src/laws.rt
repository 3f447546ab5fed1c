// Laws of the definitions that the contracts cite. Each is the contract of a function that does nothing.
ghost use Rattle.sm_bytes.specs.Utf8.{RestIsUtf8};

/// What may come at the start of a text is exactly the texts in UTF-8.
#[tactic(auto, using(crate::proofs::Characters::rest_is_utf8))]
pub fn rest_is_utf8()
    ensures { RestIsUtf8 }
{}
