// What the rules of models say, in one sentence each: an event is told by the sentence of its rule.

/// The sentence of a rule, by its id.
pub fn rule_said(id: &str) -> Option<&'static str> {
    if id.starts_with("Model.") {
        return merge_said(id);
    }
    if id.starts_with("Http.") {
        return http_said(id);
    }
    match id {
        "Id.Case" => Some("another id differs from it in case alone"),
        "Member.Case" => Some("another member differs from it in case alone"),
        "Service.Names" => Some(
            "two shapes of the service's closure have this name, or rename names what it may not",
        ),
        "Wire.Names" => Some("another member has its name on the wire"),
        "Target.Missing" => Some("what it refers to isn't there"),
        "Target.Kind" => Some("what it refers to is of a type that may not stand there"),
        "Shape.Unused" => Some("no service leads to it"),
        "Shape.Infinite" => Some(
            "its required members lead round in a circle, so it has no finite value",
        ),
        "Trait.Unknown" => Some(
            "this trait is neither one of Smithy's own that is known here, nor a shape with trait",
        ),
        "Trait.Value" => Some("this trait's value isn't as it must be"),
        "Trait.Place" => Some("this trait may not stand here"),
        "Trait.Conflict" => Some("this trait may not stand beside another that is here"),
        "Trait.Single" => Some("more than one member carries this trait"),
        "Enum.Values" => Some(
            "the values of an enum must be there, of its type, not empty and different",
        ),
        "Default.Value" => Some("its default is no value of its target"),
        "Constraint.Bounds" => Some("its min is more than its max, or a length is negative"),
        _ => None,
    }
}

// Of what the files say together.
fn merge_said(id: &str) -> Option<&'static str> {
    match id {
        "Model.Shape" => Some("two statements define it otherwise, or it is one of the prelude"),
        "Model.Trait" => Some("two values of this trait are in conflict"),
        "Model.Metadata" => Some("two values of this key of the metadata are in conflict"),
        "Model.Apply" => Some("traits are applied to what isn't there"),
        "Model.Member" => Some("it is defined again with another target"),
        "Model.Mixin" => Some(
            "a mixin isn't there, isn't marked as one, has another type or is on a circle",
        ),
        _ => None,
    }
}

// Of HTTP.
fn http_said(id: &str) -> Option<&'static str> {
    match id {
        "Http.Uri" => Some("its uri is no pattern"),
        "Http.Labels" => Some("labels and members with httpLabel don't go together"),
        "Http.Target" => Some("its target can't be written where it is bound"),
        "Http.Routes" => Some("another operation of the service has its method and its pattern"),
        "Http.Code" => Some("its code may not stand there"),
        "Http.Method" => Some("its method is none of GET, PUT, POST, PATCH and DELETE"),
        _ => None,
    }
}
