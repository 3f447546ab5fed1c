// Readers that take the bytes of one text in pieces, and hand its events to any sink as soon as their bytes are complete.
ghost use Rattle.std.specs.Prelude.{◌≡◌, IfSome, IfErr, ℕ, List, [], None, Some, Err};
ghost use Rattle.sm_tree.specs.Streams.{TakesEvery};
ghost use Rattle.sm_tree.specs.TimingLaws.{TimesTexts, HasOneCompletion, HasFewEvents, BeginsTrees};
ghost use Rattle.sm_tree.specs.ReaderClauses.{TakesStill, StaysRefused};
ghost use Rattle.sm_tree.specs.Sources.{SourceOf, SourceStands, HasCome, HasFed, MayFeed, SourceFeeds, ReadsInto, ReadCompletes};

use crate::event::EventSink;
use crate::refusal::SyntaxRefusal;
use std::alloc::Global;

/// A reader of one text of some format, to which the text's bytes come in pieces. Once it has refused it gives that refusal again, and
/// hands nothing on.
pub trait EventSource {
    /// What is said of such readers: their format, and which bytes have come to one.
    ghost source: { SourceOf Self };

    /// A reader to which no byte has come. No memory.
    fn begin(alloc: Global) -> Self
        ensures stands { SourceStands source result [] }
        ensures fresh { source.refusal result ≡ None };

    /// Takes the next piece, and hands on the events that its bytes complete. Where it has refused before, nothing changes.
    ///
    /// # Errors
    ///
    /// Places count from the first byte of all pieces. `Bad(at)`, `TooDeep(at)` and `KeyKind(at)`, exactly as the bytes so far come to
    /// them: the sink then has the events that the bytes before the place complete. The refusal that was given before. `NoMemory`, its
    /// own or the sink's.
    fn feed<E: EventSink>(&mut self, piece: &[u8], to: &mut E) -> Result<(), SyntaxRefusal>
        requires stands { MayFeed source self.old (E.stands_for to.old) }
        requires takes { TakesEvery (E.takes to.old) }
        ensures feeds { source.refusal self.old ≡ None → SourceFeeds source (E.stands_for to.old) self.old piece.now
            (E.stands_for to.new) self.new result }
        ensures again { IfSome (source.refusal self.old)
            (λ refusal. (result ≡ Err refusal) × (self.new ≡ self.old) × (to.new ≡ to.old)) }
        ensures longer { StaysRefused (SourceStands source) (source.refusal self.old) self.old piece.now }
        ensures takes { TakesStill (E.takes to.old) (E.takes to.new) result }
        ensures alike { E.alike to.old to.new };

    /// The bytes end here: hands on what only the end completes. The sink then has the events of the whole text. It is called once.
    ///
    /// # Errors
    ///
    /// `Ended`, where they are no whole text; the refusal that was given before; `NoMemory`.
    fn finish<E: EventSink>(&mut self, to: &mut E) -> Result<(), SyntaxRefusal>
        requires stands { MayFeed source self.old (E.stands_for to.old) }
        requires takes { TakesEvery (E.takes to.old) }
        ensures ends { (bytes : List ℕ) → HasFed source self.old (E.stands_for to.old) bytes
            → ReadsInto source.syntax (E.stands_for to.new) bytes result }
        ensures come { (bytes : List ℕ) → SourceStands source self.old bytes → HasCome source self.new bytes }
        ensures refused { IfErr result (λ refusal. source.refusal self.new ≡ Some refusal) }
        ensures alike { E.alike to.old to.new };

    /// What holds of the format's times. The call does nothing: code over any source makes it to know it.
    fn laws()
        ensures times { TimesTexts source.syntax.text source.timing }
        ensures few { HasFewEvents source.timing }
        ensures one { HasOneCompletion source.timing }
        ensures begin { BeginsTrees source.timing }
        ensures complete { ReadCompletes source };
}
