// The relations between shapes, and which fields say them.
ghost use Rattle.std.specs.Prelude.{◌≡◌, MatchOption};
ghost use Rattle.sm_model.specs.Relations.{
  field_relations,
  operation_relations,
  relation_name,
  relation_under,
  resource_relations,
  service_relations,
};

use crate::kind::Kind;

/// A relation between shapes (Smithy 2.0, "Selectors", "Neighbors").
#[derive(Debug, Clone, Copy, PartialEq, Eq, Drop)]
pub enum Relation {
    /// From a shape to each of its members.
    Member,
    /// From a member to its shape.
    Container,
    /// From a member to its target.
    Target,
    /// From an operation to its input.
    Input,
    /// From an operation to its output.
    Output,
    /// From an operation or a service to each of its errors.
    Error,
    /// From a service or a resource to each of its operations, those of the life cycle among them.
    Operation,
    /// From a service or a resource to each of its resources.
    Resource,
    /// From a resource to the targets of its identifiers.
    Identifier,
    /// From a resource to the targets of its properties.
    Property,
}

impl Relation {
    /// The relation with this name, as selectors write it; `None` for any other text. No memory.
    pub fn named(name: &str) -> Option<Self>
        ensures { MatchOption result ((r : Relation) → name.now ≡ relation_name r → ⊥) (λ r. name.now ≡ relation_name r) }
    {
        match name {
            "member" => Some(Relation::Member),
            "container" => Some(Relation::Container),
            "target" => Some(Relation::Target),
            "input" => Some(Relation::Input),
            "output" => Some(Relation::Output),
            "error" => Some(Relation::Error),
            "operation" => Some(Relation::Operation),
            "resource" => Some(Relation::Resource),
            "identifier" => Some(Relation::Identifier),
            "property" => Some(Relation::Property),
            _ => None,
        }
    }

    /// The relation that the field of this name says in the body of a shape of this type; `None` where it says none. No memory.
    pub fn of_field(kind: Kind, name: &str) -> Option<Self>
        ensures { result ≡ relation_under name.now (field_relations kind) }
    {
        match kind {
            Kind::Operation => Relation::of_operation(name),
            Kind::Service => Relation::of_service(name),
            Kind::Resource => Relation::of_resource(name),
            _ => None,
        }
    }

    fn of_operation(name: &str) -> Option<Self>
        ensures { result ≡ relation_under name.now operation_relations }
    {
        match name {
            "input" => Some(Relation::Input),
            "output" => Some(Relation::Output),
            "errors" => Some(Relation::Error),
            _ => None,
        }
    }

    fn of_service(name: &str) -> Option<Self>
        ensures { result ≡ relation_under name.now service_relations }
    {
        match name {
            "operations" => Some(Relation::Operation),
            "resources" => Some(Relation::Resource),
            "errors" => Some(Relation::Error),
            _ => None,
        }
    }

    fn of_resource(name: &str) -> Option<Self>
        ensures { result ≡ relation_under name.now resource_relations }
    {
        match name {
            "identifiers" => Some(Relation::Identifier),
            "properties" => Some(Relation::Property),
            "create" | "put" | "read" | "update" | "delete" | "list" => Some(Relation::Operation),
            "operations" | "collectionOperations" => Some(Relation::Operation),
            "resources" => Some(Relation::Resource),
            _ => None,
        }
    }
}
