// The list of the rules of models: the id of each one's events, and how grave they are.
ghost use Rattle.std.specs.Prelude.{◌≡◌};
ghost use Rattle.std.specs.List.{Contains};
ghost use Rattle.sm_rules.specs.RuleList.{all_rules, may_be_suppressed, rule_id, severity_of};
ghost use Rattle.sm_rules.specs.declared.rule.Rule.{Rule};

use sm_model::Severity;

/// A rule of models.
#[derive(Debug, Clone, Copy, PartialEq, Eq, Drop)]
pub enum Rule {
    /// Ids of shapes differ, not by case alone.
    IdCase,
    /// Names of members of a shape differ, not by case alone.
    MemberCase,
    /// References name shapes.
    TargetMissing,
    /// What is referred to is of a type that may stand there.
    TargetKind,
    /// Traits are known.
    TraitUnknown,
    /// Values of traits are right.
    TraitValue,
    /// Traits stand where they may.
    TraitPlace,
    /// No trait stands beside one that excludes it.
    TraitConflict,
    /// Some traits stand at one member of a structure at most.
    TraitSingle,
    /// Structures and unions have finite values.
    ShapeInfinite,
    /// Enums have members with values.
    EnumValues,
    /// Defaults are values of their targets.
    DefaultValue,
    /// Bounds of lengths and numbers are in order.
    ConstraintBounds,
    /// Names in a service's closure differ.
    ServiceNames,
    /// Operations have patterns of URIs.
    HttpUri,
    /// Labels of patterns and members that are bound to labels go together.
    HttpLabels,
    /// What is bound to a part of a message can be written there.
    HttpTarget,
    /// Names of members in messages differ.
    WireNames,
    /// Operations of a service differ in method or pattern.
    HttpRoutes,
    /// Status codes are those that may stand there.
    HttpCode,
    /// Methods are routed.
    HttpMethod,
    /// Shapes are used by a service.
    ShapeUnused,
}

impl Rule {
    /// Every rule, in the order in which they are looked at. No memory.
    pub fn all() -> &'static [Rule]
        ensures list { result.now ≡ all_rules }
        ensures every { (rule : Rule) → Contains result.now rule }
    {
        &[
            Rule::IdCase,
            Rule::MemberCase,
            Rule::TargetMissing,
            Rule::TargetKind,
            Rule::TraitUnknown,
            Rule::TraitValue,
            Rule::TraitPlace,
            Rule::TraitConflict,
            Rule::TraitSingle,
            Rule::ShapeInfinite,
            Rule::EnumValues,
            Rule::DefaultValue,
            Rule::ConstraintBounds,
            Rule::ServiceNames,
            Rule::HttpUri,
            Rule::HttpLabels,
            Rule::HttpTarget,
            Rule::WireNames,
            Rule::HttpRoutes,
            Rule::HttpCode,
            Rule::HttpMethod,
            Rule::ShapeUnused,
        ]
    }

    /// The id of its events. No memory.
    pub fn id(self) -> &'static str
        ensures { result.now ≡ rule_id self }
    {
        self.row().0
    }

    /// How grave its events are: a model is rejected for each but those of three rules. No memory.
    pub fn severity(self) -> Severity
        ensures { result ≡ severity_of self }
    {
        self.row().1
    }

    /// Whether its events may be suppressed: those for which no model is rejected. No memory.
    pub fn may_be_suppressed(self) -> bool
        ensures { result ≡ may_be_suppressed self }
    {
        match self.severity() {
            Severity::Error => false,
            Severity::Danger | Severity::Warning | Severity::Note => true,
        }
    }

    // What the list says of it.
    fn row(self) -> (&'static str, Severity)
        ensures id { result.0.now ≡ rule_id self }
        ensures severity { result.1 ≡ severity_of self }
    {
        match self {
            Rule::IdCase => ("Id.Case", Severity::Error),
            Rule::MemberCase => ("Member.Case", Severity::Error),
            Rule::TargetMissing => ("Target.Missing", Severity::Error),
            Rule::TargetKind => ("Target.Kind", Severity::Error),
            Rule::TraitUnknown => ("Trait.Unknown", Severity::Warning),
            Rule::TraitValue => ("Trait.Value", Severity::Error),
            Rule::TraitPlace => ("Trait.Place", Severity::Error),
            Rule::TraitConflict => ("Trait.Conflict", Severity::Error),
            Rule::TraitSingle => ("Trait.Single", Severity::Error),
            Rule::ShapeInfinite => ("Shape.Infinite", Severity::Error),
            Rule::EnumValues => ("Enum.Values", Severity::Error),
            Rule::DefaultValue => ("Default.Value", Severity::Error),
            Rule::ConstraintBounds => ("Constraint.Bounds", Severity::Error),
            Rule::ServiceNames => ("Service.Names", Severity::Error),
            Rule::HttpUri => ("Http.Uri", Severity::Error),
            Rule::HttpLabels => ("Http.Labels", Severity::Error),
            Rule::HttpTarget => ("Http.Target", Severity::Error),
            Rule::WireNames => ("Wire.Names", Severity::Error),
            Rule::HttpRoutes => ("Http.Routes", Severity::Error),
            Rule::HttpCode => ("Http.Code", Severity::Error),
            Rule::HttpMethod => ("Http.Method", Severity::Danger),
            Rule::ShapeUnused => ("Shape.Unused", Severity::Note),
        }
    }
}
