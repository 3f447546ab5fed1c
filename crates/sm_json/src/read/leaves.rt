// The steps of the reader within a literal name, a number and a string, and where these end.
ghost use Rattle.std.specs.Prelude.{◌≡◌, ◌<◌, length, IfOk, OnOk, []};
ghost use Rattle.sm_tree.specs.EventView.{event_of};
ghost use Rattle.sm_tree.specs.Numbers.{IsNumber};
ghost use Rattle.sm_tree.specs.Streams.{MayTake, TakesEvery};
ghost use Rattle.sm_tree.specs.NumberTail.{NumberStops, NumberTail};
ghost use Rattle.sm_json.specs.steps.Rest.{letters, literal_event};
ghost use Rattle.sm_json.specs.steps.Machine.{as_syntax};

use super::Reader;
use crate::place::{JsonPlace, Literal, Role};
use crate::text::{TextReading, TextRefusal};
use sm_tree::number::{Phase, Run, number_run, number_tree};
use sm_tree::{Event, EventSink, NoMemory, SyntaxRefusal, Tree};

impl Literal {
    // The letters of the name.
    fn letters(self) -> &'static [u8]
        ensures { result.now ≡ letters self }
    {
        match self {
            Literal::Null => b"null",
            Literal::True => b"true",
            Literal::False => b"false",
        }
    }

    // Its event.
    fn leaf(self) -> Event
        ensures { event_of result ≡ literal_event self }
    {
        match self {
            Literal::Null => Event::Null,
            Literal::True => Event::Bool(true),
            Literal::False => Event::Bool(false),
        }
    }
}

impl Reader {
    ghost use Rattle.sm_json.specs.steps.Machine.{JsonIsSound, JsonIsPlaced, JsonTakesByte, Grows, HandsNumber, HandsText, IsNumberEvent};
    ghost use Rattle.sm_json.specs.steps.Machine.{JsonTakesPrefix, text_event_of};
    ghost use Rattle.sm_json.specs.steps.StringReading.{string_so_far};

    // One more byte of a literal name.
    pub(super) fn letter<E: EventSink>(
        &mut self,
        word: Literal,
        taken: u8,
        byte: u8,
        to: &mut E,
    ) -> Result<(), SyntaxRefusal>
        requires sound { JsonIsSound self.old }
        requires placed { JsonIsPlaced self.old (E.stands_for to.old) (E.takes to.old) }
        requires place { self.old.place ≡ JsonPlace.Word word taken }
        requires begun { taken < length (letters word) }
        ensures goes { JsonTakesByte self.old (E.stands_for to.old) byte self.new (E.stands_for to.new) (E.takes to.new) result }
        ensures alike { E.alike to.old to.new }
    {
        let name = word.letters();
        let at = taken as usize;
        if name[at] != byte {
            return Err(SyntaxRefusal::Bad(0));
        }
        if at + 1 < name.len() {
            self.place = JsonPlace::Word(word, taken + 1);
        } else {
            to.event(word.leaf())?;
            self.place = JsonPlace::After;
        }
        Ok(())
    }

    // Takes the bytes that go on with the number, up to the first that doesn't, and says how many.
    fn grow_number(&mut self, phase: Phase, bytes: &[u8]) -> Result<Run, NoMemory>
        requires sound { JsonIsSound self.old }
        requires place { self.old.place ≡ JsonPlace.Number phase }
        ensures { IfOk result (λ run. Grows self.old bytes.now run self.new) }
    {
        let run = number_run(phase, bytes);
        self.number.extend_from_slice(&bytes[..run.count])?;
        self.place = JsonPlace::Number(run.phase);
        Ok(run)
    }

    // The event of the number, which is whole.
    #[inline(always)]
    fn number_event(&self) -> Result<Event, NoMemory>
        requires { IsNumber self.now.number.items }
        ensures { IfOk result (λ event. IsNumberEvent self.now.number.items (event_of event)) }
    {
        match number_tree(self.alloc, self.number.as_slice())? {
            Tree::Int(integer) => Ok(Event::Int(integer)),
            Tree::Number(text) => Ok(Event::Number(text)),
            _ => unreachable!(),
        }
    }

    // Hands on the number, which is whole. The reader stays where it is.
    pub(super) fn hand_number<E: EventSink>(&self, phase: Phase, to: &mut E) -> Result<(), NoMemory>
        requires sound { JsonIsSound self.now }
        requires placed { JsonIsPlaced self.now (E.stands_for to.old) (E.takes to.old) }
        requires place { self.now.place ≡ JsonPlace.Number phase }
        requires whole { NumberTail phase [] }
        ensures goes { OnOk result (HandsNumber self.now (E.stands_for to.old) (E.stands_for to.new) (E.takes to.new)) }
        ensures alike { E.alike to.old to.new }
    {
        let event = self.number_event()?;
        to.event(event)
    }

    // A byte that the number doesn't go on with.
    fn end_number<E: EventSink>(
        &mut self,
        phase: Phase,
        byte: u8,
        to: &mut E,
    ) -> Result<(), SyntaxRefusal>
        requires sound { JsonIsSound self.old }
        requires placed { JsonIsPlaced self.old (E.stands_for to.old) (E.takes to.old) }
        requires place { self.old.place ≡ JsonPlace.Number phase }
        requires stops { NumberStops phase byte }
        ensures goes { JsonTakesByte self.old (E.stands_for to.old) byte self.new (E.stands_for to.new) (E.takes to.new) result }
        ensures alike { E.alike to.old to.new }
    {
        if !phase.is_whole() {
            return Err(SyntaxRefusal::Bad(0));
        }
        if !self.may_follow(byte) {
            return Err(SyntaxRefusal::Bad(0));
        }
        self.hand_number(phase, to)?;
        self.place = JsonPlace::After;
        self.behind(byte, to)
    }

    // Bytes in a number.
    pub(super) fn number<E: EventSink>(
        &mut self,
        phase: Phase,
        bytes: &[u8],
        to: &mut E,
    ) -> Result<usize, SyntaxRefusal>
        requires sound { JsonIsSound self.old }
        requires placed { JsonIsPlaced self.old (E.stands_for to.old) (E.takes to.old) }
        requires place { self.old.place ≡ JsonPlace.Number phase }
        requires some { 0 < length bytes.now }
        ensures goes { JsonTakesPrefix self.old (E.stands_for to.old) bytes.now self.new (E.stands_for to.new) (E.takes to.new) result }
        ensures alike { E.alike to.old to.new }
    {
        let run = self.grow_number(phase, bytes)?;
        if run.count == bytes.len() {
            return Ok(run.count);
        }
        match self.end_number(run.phase, bytes[run.count], to) {
            Ok(()) => Ok(run.count + 1),
            Err(refusal) => Err(refusal.moved_by(run.count)),
        }
    }

    // Hands on the string, which has closed.
    fn hand_text<E: EventSink>(&mut self, role: Role, to: &mut E) -> Result<(), NoMemory>
        requires taken { TakesEvery (E.takes to.old) }
        requires placed { MayTake (E.stands_for to.old) (text_event_of role (string_so_far self.old.text)) }
        ensures goes { OnOk result (HandsText role self.old (E.stands_for to.old) self.new (E.stands_for to.new) (E.takes to.new)) }
        ensures alike { E.alike to.old to.new }
    {
        let text = self.text.text(self.alloc)?;
        match role {
            Role::Key => {
                to.event(Event::Key(text))?;
                self.place = JsonPlace::Colon;
            }
            Role::Value => {
                to.event(Event::Text(text))?;
                self.place = JsonPlace::After;
            }
        }
        Ok(())
    }

    // Bytes in a string.
    pub(super) fn string<E: EventSink>(
        &mut self,
        role: Role,
        bytes: &[u8],
        to: &mut E,
    ) -> Result<usize, SyntaxRefusal>
        requires sound { JsonIsSound self.old }
        requires placed { JsonIsPlaced self.old (E.stands_for to.old) (E.takes to.old) }
        requires place { self.old.place ≡ JsonPlace.Text role }
        requires some { 0 < length bytes.now }
        ensures goes { JsonTakesPrefix self.old (E.stands_for to.old) bytes.now self.new (E.stands_for to.new) (E.takes to.new) result }
        ensures alike { E.alike to.old to.new }
    {
        match self.text.read(bytes) {
            Ok(TextReading::Closed(count)) => {
                self.hand_text(role, to)?;
                Ok(count)
            }
            Ok(TextReading::Open) => Ok(bytes.len()),
            Err(refusal) => Err(refused(refusal)),
        }
    }
}

// The refusal of a string as that of a text.
fn refused(refusal: TextRefusal) -> SyntaxRefusal
    ensures { result ≡ as_syntax refusal }
{
    match refusal {
        TextRefusal::Bad(at) => SyntaxRefusal::Bad(at as u64),
        TextRefusal::NoMemory => SyntaxRefusal::NoMemory,
    }
}
