// What the schema of a shape has to do with the trees that spell its values. These calls do nothing.
ghost use Rattle.sm_schema.specs.SchemaLaws.{SpelledIsValid, ValidIsSpelled, OneSchema, SomeSchema, NotesDontCount, OneNotedSchema, SomeNotedSchema};

/// A tree that has no fault for a shape is accepted by the shape's schema.
pub fn spelled_is_valid()
    ensures { SpelledIsValid }
{}

/// A tree that the schema of a shape accepts has no fault for the shape, where the schema can say all that the shape asks for.
pub fn valid_is_spelled()
    ensures { ValidIsSpelled }
{}

/// A shape has one schema.
pub fn one_schema()
    ensures { OneSchema }
{}

/// Each shape of a table in order has a schema.
pub fn some_schema()
    ensures { SomeSchema }
{}

/// What people read in a schema (titles, documentation, defaults) refuses no tree and lets none in.
pub fn notes_dont_count()
    ensures { NotesDontCount }
{}

/// With the same notes a shape has one schema too,
pub fn one_noted_schema()
    ensures { OneNotedSchema }
{}

/// and has one.
pub fn some_noted_schema()
    ensures { SomeNotedSchema }
{}
