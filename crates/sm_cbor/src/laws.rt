// Laws of items and of what is written, each the contract of a function whose body is empty.
ghost use Rattle.sm_tree.specs.SyntaxLaws.{HasOneReading, HasOneAnswer, HasSomeAnswer};
ghost use Rattle.sm_cbor.specs.Refusals.{cbor_syntax};
ghost use Rattle.sm_tree.specs.TimingLaws.{TimesTexts, HasOneCompletion, GoesFurther, HasFewEvents, BeginsTrees};
ghost use Rattle.sm_cbor.specs.CborItem.{CborItem};
ghost use Rattle.sm_cbor.specs.Timing.{cbor_timing};
ghost use Rattle.sm_cbor.specs.Laws.{WrittenIsItem, WrittenItemIsRead};
ghost use Rattle.sm_cbor.specs.WrittenEvents.{WrittenEventsAreItem, WrittenEventsBeginItem, CborEventsStand, CborStreamsAreTaken};

/// What is written for a tree is a CBOR item of that tree (RFC 8949), if 64 bits hold its length.
pub fn written_is_item()
    ensures { WrittenIsItem }
{}

/// What is written for a tree of at most 100 levels is read as that tree, and as no other, and isn't refused.
pub fn written_is_read()
    ensures { WrittenItemIsRead }
{}

/// Bytes are an item of at most one tree.
pub fn one_reading()
    ensures { HasOneReading cbor_syntax }
{}

/// Bytes are an item that is read, or have one place with one cause, or are cut short, and only one of these.
pub fn one_answer()
    ensures { HasOneAnswer cbor_syntax }
{}

/// No bytes are without an answer: they are an item that is read, or refused at a place, or cut short.
pub fn some_answer()
    ensures { HasSomeAnswer cbor_syntax }
{}

/// What is written for the events of a tree, one after the other, is the item that is written for the tree, where openers
/// tell their numbers.
#[tactic(auto, using(crate::proofs::EventItems::item_written))]
pub fn written_events_are_item()
    ensures { WrittenEventsAreItem }
{}

/// What is written for the first events of a tree is a prefix of the item that is written for it.
#[tactic(auto, using(crate::proofs::EventItems::prefix_written))]
pub fn written_events_begin()
    ensures { WrittenEventsBeginItem }
{}

/// The events that a `CborWriter` takes are exactly those that stand in a stream of some tree that is written as CBOR, where
/// openers tell their numbers.
#[tactic(auto, using(crate::proofs::TakenEvents::events_stand))]
pub fn events_stand()
    ensures { CborEventsStand }
{}

/// A `CborWriter` takes each event of a stream of such a tree.
#[tactic(auto, using(crate::proofs::TakenEvents::streams_taken))]
pub fn streams_are_taken()
    ensures { CborStreamsAreTaken }
{}

/// Each item has events with their times, what has them is an item, and they are a stream of its tree.
pub fn timing()
    ensures { TimesTexts CborItem cbor_timing }
{}

/// Bytes complete two events each at most.
pub fn few_events()
    ensures { HasFewEvents cbor_timing }
{}

/// Bytes complete one list of events at most, and more bytes complete the same events, and perhaps more.
pub fn one_completion()
    ensures one { HasOneCompletion cbor_timing }
    ensures further { GoesFurther cbor_timing }
{}

/// What bytes complete begins a stream of a tree of at most 100 levels.
pub fn begins_trees()
    ensures { BeginsTrees cbor_timing }
{}
