// What a model says to people of shapes and members, by their numbers in a table.
ghost use Rattle.std.specs.Prelude.{◌≡◌};
ghost use Rattle.sm_schema.specs.Noted as the;
ghost use Rattle.sm_schema.specs.NotesView.{member_notes_data, notes_data, shape_notes_data};

/// What is said of a shape.
#[derive(Debug, Clone, Copy)]
pub struct ShapeNotes<'a> {
    /// Its title.
    pub title: &'a str,
    /// What its documentation says, where it has any.
    pub description: Option<&'a str>,
    /// Whether it is deprecated.
    pub deprecated: bool,
}

/// What is said of a member.
#[derive(Debug, Clone, Copy)]
pub struct MemberNotes<'a> {
    /// What its documentation says, where it has any of its own.
    pub description: Option<&'a str>,
    /// Whether it is deprecated.
    pub deprecated: bool,
}

/// What is said of the shapes and the members of a table. Of one that has no row here nothing is said: an empty title, no more.
#[derive(Debug, Drop)]
pub struct Notes<'a> {
    /// Of the shapes, by their numbers.
    pub shapes: Vec<ShapeNotes<'a>>,
    /// Of the members, by theirs.
    pub members: Vec<MemberNotes<'a>>,
}

impl<'a> Notes<'a> {
    // What is said of a shape.
    pub(crate) fn shape(&self, shape: u32) -> ShapeNotes<'a>
        ensures { shape_notes_data result ≡ the.shape_notes (notes_data self.now) shape }
    {
        match self.shapes.get(shape as usize) {
            Some(said) => *said,
            None => ShapeNotes {
                title: "",
                description: None,
                deprecated: false,
            },
        }
    }

    // What is said of a member.
    pub(crate) fn member(&self, member: u32) -> MemberNotes<'a>
        ensures { member_notes_data result ≡ the.member_notes (notes_data self.now) member }
    {
        match self.members.get(member as usize) {
            Some(said) => *said,
            None => MemberNotes {
                description: None,
                deprecated: false,
            },
        }
    }
}
