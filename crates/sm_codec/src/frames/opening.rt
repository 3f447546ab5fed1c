// What the frames of a decoder become behind a tag, an opener and a name.
ghost use Rattle.std.specs.Prelude.{◌≡◌, ◌∷◌, suc, Some, OnOk, IfOk};
ghost use Rattle.sm_shapes.specs.InOrder.{Shaped};
ghost use Rattle.sm_shapes.specs.Places.{shape_of};
ghost use Rattle.sm_shapes.specs.TableView.{table_data};
ghost use Rattle.sm_codec.specs.Codec.{InTable};
ghost use Rattle.sm_codec.specs.Decoding.{skip_frame};
ghost use Rattle.sm_codec.specs.PlaceView.{place_of};
ghost use Rattle.sm_codec.specs.Sorts.{sort_of};
ghost use Rattle.sm_codec.specs.StackView.{frame_of, frames_of};
ghost use Rattle.sm_codec.specs.steps.DecoderSteps.{due_told};
ghost use Rattle.sm_codec.specs.steps.OpeningSteps.{below, ToldIn, nested_in, tag_frame, TagBy, list_start, object_start, StartBy};
ghost use Rattle.sm_codec.specs.steps.OpeningSteps.{CanName, FirstCanName, FrameNames, FirstNames, NameBy};

use super::{Due, EntryFrame, Frame, Frames, KeyFrame, MemberFrame};
use crate::places::ValuePlace;
use crate::{LeafRefusal, Leaves};
use sm_shapes::FaultKind;
use sm_shapes::kinds::ShapeKind;
use sm_shapes::tables::Table;
use sm_tree::{Items, NoMemory, Tree};
use std::alloc::Global;

// The fault of a tag at a place, with a list, an object or a tag under it.
fn nested<L: Leaves>(
    alloc: Global,
    table: &Table,
    place: ValuePlace,
    tag: u64,
    leaves: &L,
) -> Result<FaultKind, NoMemory>
    requires shaped { Shaped (table_data table.now) }
    requires place { InTable (table_data table.now) (place_of place) }
    ensures { IfOk result (λ kind. kind ≡ nested_in (L.convention leaves.now) (sort_of (table_data table.now) (place_of place)) tag) }
{
    let Some(simple) = place.simple(table) else {
        return Ok(FaultKind::WrongType);
    };
    let nothing = Tree::List(Items::new(Vec::new(alloc)));
    let tree = Tree::Tag(tag, Box::new(alloc, nothing)?);
    match leaves.read(alloc, simple, &tree) {
        Ok(_) => Ok(FaultKind::WrongType),
        Err(LeafRefusal::Fault(kind)) => Ok(kind),
        Err(LeafRefusal::NoMemory) => Err(NoMemory),
    }
}

// The frame of a tag at a place.
fn tagged(table: &Table, place: ValuePlace, tag: u64) -> Frame
    requires shaped { Shaped (table_data table.now) }
    requires place { InTable (table_data table.now) (place_of place) }
    ensures { frame_of result ≡ tag_frame (sort_of (table_data table.now) (place_of place))
        (shape_of (table_data table.now) (place_of place)) tag }
{
    match place.simple(table) {
        Some(_) => Frame::Tagged(place.shape(table), tag),
        None => Frame::Skip(0, Some(FaultKind::WrongType)),
    }
}

// The frame of a list that opens at a place.
pub(crate) fn list_at(alloc: Global, table: &Table, place: ValuePlace) -> Frame
    requires shaped { Shaped (table_data table.now) }
    requires place { InTable (table_data table.now) (place_of place) }
    ensures { frame_of result ≡ list_start (sort_of (table_data table.now) (place_of place))
        (shape_of (table_data table.now) (place_of place)) }
{
    match place.kind(table) {
        ShapeKind::List => Frame::List(EntryFrame::new(alloc, place.shape(table))),
        _ => Frame::Skip(1, Some(FaultKind::WrongType)),
    }
}

// That of an object.
pub(crate) fn object_at(alloc: Global, table: &Table, place: ValuePlace) -> Frame
    requires shaped { Shaped (table_data table.now) }
    requires place { InTable (table_data table.now) (place_of place) }
    ensures { frame_of result ≡ object_start (sort_of (table_data table.now) (place_of place))
        (shape_of (table_data table.now) (place_of place)) }
{
    match place.kind(table) {
        ShapeKind::Structure => Frame::Structure(MemberFrame::new(alloc, place.shape(table))),
        ShapeKind::Union => Frame::Union(MemberFrame::new(alloc, place.shape(table))),
        ShapeKind::Map => Frame::Map(KeyFrame::new(alloc, place.shape(table))),
        _ => Frame::Skip(1, Some(FaultKind::WrongType)),
    }
}

impl Frames {
    // The innermost frame goes, and another comes.
    fn replace(&mut self, frame: Frame) -> Result<(), NoMemory>
        ensures { OnOk result (frames_of self.new ≡ frame_of frame ∷ below (frames_of self.old)) }
    {
        match self.pop() {
            Some(_) => self.push(frame),
            None => self.push(frame),
        }
    }

    // A tag comes, where the root has this shape.
    pub(crate) fn tag<L: Leaves>(
        &mut self,
        alloc: Global,
        table: &Table,
        root: u32,
        tag: u64,
        leaves: &L,
    ) -> Result<(), NoMemory>
        requires shaped { Shaped (table_data table.now) }
        requires due { ToldIn (table_data table.now) (due_told (table_data table.now) root (frames_of self.old)) }
        ensures { OnOk result (TagBy (table_data table.now) (L.convention leaves.now)
            (due_told (table_data table.now) root (frames_of self.old)) tag (frames_of self.old) (frames_of self.new)) }
    {
        match self.due(table, root) {
            Due::At(place) => self.push(tagged(table, place, tag)),
            Due::Tagged(place, outer) => match nested(alloc, table, place, outer, leaves) {
                Ok(kind) => self.replace(Frame::Skip(0, Some(kind))),
                Err(refusal) => Err(refusal),
            },
            Due::Passed(_, _) => Ok(()),
        }
    }

    // A list or an object opens under a tag.
    fn start_nested<L: Leaves>(
        &mut self,
        alloc: Global,
        table: &Table,
        place: ValuePlace,
        tag: u64,
        leaves: &L,
    ) -> Result<(), NoMemory>
        requires shaped { Shaped (table_data table.now) }
        requires place { InTable (table_data table.now) (place_of place) }
        ensures { OnOk result (frames_of self.new ≡ skip_frame 1
            (Some (nested_in (L.convention leaves.now) (sort_of (table_data table.now) (place_of place)) tag)) ∷ below
            (frames_of self.old)) }
    {
        match nested(alloc, table, place, tag, leaves) {
            Ok(kind) => self.replace(Frame::Skip(1, Some(kind))),
            Err(refusal) => Err(refusal),
        }
    }

    // One opens in what is passed over. `NoMemory` too where the depth is at its type's end.
    fn start_deeper(&mut self, depth: u32, report: Option<FaultKind>) -> Result<(), NoMemory>
        ensures { OnOk result (frames_of self.new ≡ skip_frame (suc depth) report ∷ below (frames_of self.old)) }
    {
        match depth.checked_add(1) {
            Some(depth) => self.replace(Frame::Skip(depth, report)),
            None => Err(NoMemory),
        }
    }

    // A list opens, where the root has this shape.
    pub(crate) fn start_list<L: Leaves>(
        &mut self,
        alloc: Global,
        table: &Table,
        root: u32,
        leaves: &L,
    ) -> Result<(), NoMemory>
        requires shaped { Shaped (table_data table.now) }
        requires due { ToldIn (table_data table.now) (due_told (table_data table.now) root (frames_of self.old)) }
        ensures { OnOk result (StartBy list_start (table_data table.now) (L.convention leaves.now)
            (due_told (table_data table.now) root (frames_of self.old)) (frames_of self.old) (frames_of self.new)) }
    {
        match self.due(table, root) {
            Due::At(place) => self.push(list_at(alloc, table, place)),
            Due::Tagged(place, tag) => self.start_nested(alloc, table, place, tag, leaves),
            Due::Passed(depth, report) => self.start_deeper(depth, report),
        }
    }

    // An object opens, where the root has this shape.
    pub(crate) fn start_object<L: Leaves>(
        &mut self,
        alloc: Global,
        table: &Table,
        root: u32,
        leaves: &L,
    ) -> Result<(), NoMemory>
        requires shaped { Shaped (table_data table.now) }
        requires due { ToldIn (table_data table.now) (due_told (table_data table.now) root (frames_of self.old)) }
        ensures { OnOk result (StartBy object_start (table_data table.now) (L.convention leaves.now)
            (due_told (table_data table.now) root (frames_of self.old)) (frames_of self.old) (frames_of self.new)) }
    {
        match self.due(table, root) {
            Due::At(place) => self.push(object_at(alloc, table, place)),
            Due::Tagged(place, tag) => self.start_nested(alloc, table, place, tag, leaves),
            Due::Passed(depth, report) => self.start_deeper(depth, report),
        }
    }

    // The name of a pair comes in the innermost object.
    pub(crate) fn key<L: Leaves>(
        &mut self,
        alloc: Global,
        table: &Table,
        name: &str,
        leaves: &L,
    ) -> Result<(), NoMemory>
        requires shaped { Shaped (table_data table.now) }
        requires can { FirstCanName (table_data table.now) (frames_of self.old) }
        ensures { OnOk result (NameBy (table_data table.now) (L.convention leaves.now) name.now (frames_of self.old) (frames_of self.new)) }
    {
        match self.name_first(alloc, table, name, leaves) {
            Ok(true) => Ok(()),
            Ok(false) => self.push(Frame::Skip(0, None)),
            Err(refusal) => Err(refusal),
        }
    }

    // The innermost frame is told the name, and says whether what stands under it is looked at there.
    pub(crate) fn name_first<L: Leaves>(
        &mut self,
        alloc: Global,
        table: &Table,
        name: &str,
        leaves: &L,
    ) -> Result<bool, NoMemory>
        requires shaped { Shaped (table_data table.now) }
        requires can { FirstCanName (table_data table.now) (frames_of self.old) }
        ensures { IfOk result (λ known. FirstNames (table_data table.now) (L.convention leaves.now) name.now known (frames_of self.old)
            (frames_of self.new)) }
    {
        match self.frames.last_mut() {
            Some(frame) => frame.name(alloc, table, name, leaves),
            None => unreachable!(),
        }
    }
}

impl Frame {
    // The name of the next pair comes; whether what stands under it is looked at here.
    fn name<L: Leaves>(
        &mut self,
        alloc: Global,
        table: &Table,
        name: &str,
        leaves: &L,
    ) -> Result<bool, NoMemory>
        requires shaped { Shaped (table_data table.now) }
        requires can { CanName (table_data table.now) (frame_of self.old) }
        ensures { IfOk result (λ known. FrameNames (table_data table.now) (L.convention leaves.now) name.now known (frame_of self.old)
            (frame_of self.new)) }
    {
        match self {
            Frame::Structure(frame) => {
                frame.name(table, leaves, name);
                Ok(frame.current.is_some())
            }
            Frame::Union(frame) => {
                frame.name(table, leaves, name);
                Ok(frame.current.is_some())
            }
            Frame::Map(frame) => match frame.name(alloc, name) {
                Ok(()) => Ok(true),
                Err(refusal) => Err(refusal),
            },
            Frame::Skip(_, _) => Ok(true),
            Frame::List(_) => unreachable!(),
            Frame::Tagged(_, _) => unreachable!(),
        }
    }
}
