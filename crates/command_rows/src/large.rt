// Models as large as a row asks for.
use sm_tree::NoMemory;
use std::alloc::Global;

/// How many shapes a model has, how many members the first of them has, and whether the others mix it in.
#[derive(Debug, Clone, Copy)]
pub struct Size {
    shapes: u32,
    members: u32,
    mixed: bool,
}

/// The number of the first shape, and that of the first member: so all names have one length.
const FIRST: u32 = 100_000;

impl Size {
    /// The size that two numbers say.
    pub fn of(text: &str, mixed: bool) -> Option<Self> {
        let (shapes, members) = text.split_once(' ')?;
        Some(Size {
            shapes: shapes.parse::<u32>().ok()?,
            members: members.parse::<u32>().ok()?,
            mixed,
        })
    }

    /// A model of this size, of structures: where none is mixed in, as `convert` writes it.
    pub fn model(self, alloc: Global) -> Result<String, NoMemory> {
        let mut text = String::from_str(alloc, "{\"smithy\":\"2.0\",\"shapes\":{")?;
        for shape in 0..self.shapes {
            put_name(alloc, "a#S", shape, &mut text)?;
            text.push_str(":{\"type\":\"structure\",")?;
            text.push_str(self.mixing(shape))?;
            text.push_str("\"members\":{")?;
            put_members(alloc, if shape == 0 { self.members } else { 0 }, &mut text)?;
            text.push_str("}}")?;
        }
        text.push_str("}}")?;
        Ok(text)
    }

    // What makes the first structure a mixin, and what mixes it into another one.
    fn mixing(self, shape: u32) -> &'static str {
        if !self.mixed {
            ""
        } else if shape == 0 {
            "\"traits\":{\"smithy.api#mixin\":{}},"
        } else {
            "\"mixins\":[{\"target\":\"a#S100000\"}],"
        }
    }
}

// A name with its number, behind a comma where it isn't the first.
fn put_name(alloc: Global, stem: &str, place: u32, text: &mut String) -> Result<(), NoMemory> {
    let number = FIRST.saturating_add(place);
    text.push_str(if place == 0 { "\"" } else { ",\"" })?;
    text.push_str(format!(in alloc; "{stem}{number}")?.as_str())?;
    text.push_str("\"")?;
    Ok(())
}

fn put_members(alloc: Global, members: u32, text: &mut String) -> Result<(), NoMemory> {
    for member in 0..members {
        put_name(alloc, "m", member, text)?;
        text.push_str(":{\"target\":\"smithy.api#String\"}")?;
    }
    Ok(())
}
