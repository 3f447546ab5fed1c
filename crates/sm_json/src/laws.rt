// Laws of texts and of what is written, each the contract of a function whose body is empty.
ghost use Rattle.sm_tree.specs.TimingLaws.{TimesTexts, HasOneCompletion, GoesFurther, HasFewEvents, BeginsTrees};
ghost use Rattle.sm_json.specs.JsonText.{JsonText};
ghost use Rattle.sm_json.specs.Timing.{json_timing};
ghost use Rattle.sm_json.specs.Laws.{WrittenIsText, WrittenSpells, WrittenIsRead, WrittenTextSpells, EscapesAreMeant, TextsAreTimed};
ghost use Rattle.sm_json.specs.Laws.{FewEvents, NoEventYet, OneReading, OneAnswer, SomeAnswer};
ghost use Rattle.sm_json.specs.Stands.{StandingCompletes};
ghost use Rattle.sm_json.specs.WrittenEvents.{WrittenEventsAreTree, WrittenEventsBegin, JsonEventsStand, JsonStreamsAreTaken};

/// What is written for a tree is a JSON text of that tree (RFC 8259).
pub fn written_is_text()
    ensures { WrittenIsText }
{}

/// What is written for a tree spells it, whatever follows.
pub fn written_spells()
    ensures { WrittenSpells }
{}

/// What is written for a tree of at most 100 levels is read as that tree, and as no other, and isn't refused.
pub fn written_is_read()
    ensures { WrittenIsRead }
{}

/// The written text of a string is a string of RFC 8259, section 7, for every text in UTF-8.
pub fn written_text_spells()
    ensures { WrittenTextSpells }
{}

/// The escapes that are written, each by an example.
pub fn escapes_are_meant()
    ensures { EscapesAreMeant }
{}

/// Each JSON text has its times: its tree's events, each with the byte that completes it.
pub fn texts_are_timed()
    ensures { TextsAreTimed }
{}

/// A JSON text has at most one event a byte, and bytes complete two events each at most.
pub fn few_events()
    ensures text { FewEvents }
    ensures begun { HasFewEvents json_timing }
{}

/// What has times is a JSON text, and its events are a stream of its tree.
#[tactic(auto, using(crate::proofs::PrefixRuns::times_texts))]
pub fn timing()
    ensures { TimesTexts JsonText json_timing }
{}

/// Bytes complete one list of events at most, and more bytes complete the same events, and perhaps more.
pub fn one_completion()
    ensures one { HasOneCompletion json_timing }
    ensures further { GoesFurther json_timing }
{}

/// What bytes complete begins a stream of a tree of at most 100 levels.
pub fn begins_trees()
    ensures { BeginsTrees json_timing }
{}

/// Before the first byte of a JSON text no event is complete.
pub fn no_event_yet()
    ensures { NoEventYet }
{}

/// The bytes that have come to a `JsonReader`, and weren't refused, complete some events.
pub fn standing_completes()
    ensures { StandingCompletes }
{}

/// Bytes are a JSON text of at most one tree.
pub fn one_reading()
    ensures { OneReading }
{}

/// Bytes are read as one tree at most, or refused by one word at one place, and never both: what `read_tree` answers
/// is determined, but where it is out of memory.
pub fn one_answer()
    ensures { OneAnswer }
{}

/// No bytes are without an answer: any are read as a tree, or refused by some word.
pub fn some_answer()
    ensures { SomeAnswer }
{}

/// What is written for the events of a tree, one after the other, is the text that is written for the tree.
#[tactic(auto, using(crate::proofs::EventTexts::tree_written))]
pub fn written_events_are_tree()
    ensures { WrittenEventsAreTree }
{}

/// What is written for the first events of a tree is a prefix of that text.
#[tactic(auto, using(crate::proofs::EventTexts::prefix_written))]
pub fn written_events_begin()
    ensures { WrittenEventsBegin }
{}

/// The events that a `JsonWriter` takes are exactly those that stand in a stream of some tree that JSON can spell.
#[tactic(auto, using(crate::proofs::TakenEvents::events_stand))]
pub fn events_stand()
    ensures { JsonEventsStand }
{}

/// A `JsonWriter` takes each event of a stream of such a tree.
#[tactic(auto, using(crate::proofs::TakenEvents::streams_taken))]
pub fn streams_are_taken()
    ensures { JsonStreamsAreTaken }
{}
