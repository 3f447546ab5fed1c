// The steps of the reader from one token to the next: brackets, braces, commas, colons and whitespace, and
// the first byte of each value and each name.
ghost use Rattle.std.specs.Prelude.{◌≡◌, ◌<◌, ◌↔◌, ◌⊎◌, IsTrue, length, OnOk, false, [], ◌∷◌};
ghost use Rattle.sm_bytes.specs.Ascii.{quote, comma, left_bracket, right_bracket, left_brace, right_brace};
ghost use Rattle.sm_tree.specs.Building.{IsIn};
ghost use Rattle.sm_json.specs.Strings.{is_whitespace};
ghost use Rattle.sm_tree.specs.NumberTail.{NumberLeads};

use super::Reader;
use crate::place::{JsonPlace, Literal, Role};
use crate::whitespace::Whitespace;
use sm_bytes::{ByteClass, run_len};
use sm_tree::number::Phase;
use sm_tree::{Event, EventSink, MOST_LEVELS, NoMemory, OpenKind, SyntaxRefusal};

// A comma or the end of a list.
fn follows_entry(byte: u8) -> bool
    ensures { IsTrue result ↔ (byte ≡ comma) ⊎ (byte ≡ right_bracket) }
{
    byte == b',' || byte == b']'
}

// A comma or the end of an object.
fn follows_pair(byte: u8) -> bool
    ensures { IsTrue result ↔ (byte ≡ comma) ⊎ (byte ≡ right_brace) }
{
    byte == b',' || byte == b'}'
}

impl Reader {
    ghost use Rattle.sm_json.specs.steps.Machine.{JsonIsSound, JsonIsPlaced, JsonTakesByte, JsonStepsByte, JsonGoes, JsonBrings};
    ghost use Rattle.sm_json.specs.steps.Machine.{HasClosed, ClosesAt, BeginsString, TakesWhitespace, JsonTakesPrefix, MayFollow};
    ghost use Rattle.sm_json.specs.steps.Machine.{json_state, lists_of, first_letter};

    // A bracket where a value may come.
    fn open_list<E: EventSink>(&mut self, to: &mut E) -> Result<(), SyntaxRefusal>
        requires sound { JsonIsSound self.old }
        requires placed { JsonIsPlaced self.old (E.stands_for to.old) (E.takes to.old) }
        requires place { self.old.place ≡ JsonPlace.Value }
        ensures goes { JsonTakesByte self.old (E.stands_for to.old) left_bracket self.new (E.stands_for to.new) (E.takes to.new) result }
        ensures alike { E.alike to.old to.new }
    {
        if self.lists.depth() >= MOST_LEVELS {
            return Err(SyntaxRefusal::TooDeep(0));
        }
        to.event(Event::StartList(None))?;
        self.lists.enter(OpenKind::List);
        self.place = JsonPlace::FirstEntry;
        Ok(())
    }

    fn open_object<E: EventSink>(&mut self, to: &mut E) -> Result<(), SyntaxRefusal>
        requires sound { JsonIsSound self.old }
        requires placed { JsonIsPlaced self.old (E.stands_for to.old) (E.takes to.old) }
        requires place { self.old.place ≡ JsonPlace.Value }
        ensures goes { JsonTakesByte self.old (E.stands_for to.old) left_brace self.new (E.stands_for to.new) (E.takes to.new) result }
        ensures alike { E.alike to.old to.new }
    {
        if self.lists.depth() >= MOST_LEVELS {
            return Err(SyntaxRefusal::TooDeep(0));
        }
        to.event(Event::StartObject(None))?;
        self.lists.enter(OpenKind::Object);
        self.place = JsonPlace::FirstKey;
        Ok(())
    }

    // What is open innermost ends.
    #[tactic(auto, using(sm_tree::proofs::NestedRoom::left_behind))]
    fn close(&mut self)
        requires inside { 0 < length (lists_of self.old) }
        ensures { HasClosed self.old self.new }
    {
        self.lists.leave();
        self.place = JsonPlace::After;
    }

    fn close_list<E: EventSink>(&mut self, to: &mut E) -> Result<(), NoMemory>
        requires placed { JsonIsPlaced self.old (E.stands_for to.old) (E.takes to.old) }
        requires place { ClosesAt OpenKind.List self.old.place }
        requires inside { IsIn OpenKind.List (lists_of self.old) }
        ensures goes { OnOk result (JsonBrings self.old (E.stands_for to.old) (right_bracket ∷ []) self.new (E.stands_for to.new)
            (E.takes to.new)) }
        ensures alike { E.alike to.old to.new }
    {
        to.event(Event::EndList)?;
        self.close();
        Ok(())
    }

    fn close_object<E: EventSink>(&mut self, to: &mut E) -> Result<(), NoMemory>
        requires placed { JsonIsPlaced self.old (E.stands_for to.old) (E.takes to.old) }
        requires place { ClosesAt OpenKind.Object self.old.place }
        requires inside { IsIn OpenKind.Object (lists_of self.old) }
        ensures goes { OnOk result (JsonBrings self.old (E.stands_for to.old) (right_brace ∷ []) self.new (E.stands_for to.new)
            (E.takes to.new)) }
        ensures alike { E.alike to.old to.new }
    {
        to.event(Event::EndObject)?;
        self.close();
        Ok(())
    }

    fn begin_word(&mut self, word: Literal)
        requires place { self.old.place ≡ JsonPlace.Value }
        ensures { JsonGoes self.old (first_letter word ∷ []) [] self.new }
    {
        self.place = JsonPlace::Word(word, 1);
    }

    fn begin_text(&mut self, role: Role)
        requires place { BeginsString role self.old.place }
        ensures { JsonGoes self.old (quote ∷ []) [] self.new }
    {
        self.text.start();
        self.place = JsonPlace::Text(role);
    }

    fn begin_number(&mut self, byte: u8, phase: Phase) -> Result<(), NoMemory>
        requires place { self.old.place ≡ JsonPlace.Value }
        requires black { is_whitespace byte ≡ false }
        requires begins { NumberLeads Phase.Start (byte ∷ []) phase }
        ensures { OnOk result (JsonGoes self.old (byte ∷ []) [] self.new) }
    {
        self.number.clear();
        self.number.push(byte)?;
        self.place = JsonPlace::Number(phase);
        Ok(())
    }

    // A byte where a value must come.
    #[inline(always)]
    fn value<E: EventSink>(&mut self, byte: u8, to: &mut E) -> Result<(), SyntaxRefusal>
        requires sound { JsonIsSound self.old }
        requires placed { JsonIsPlaced self.old (E.stands_for to.old) (E.takes to.old) }
        requires place { self.old.place ≡ JsonPlace.Value }
        requires black { is_whitespace byte ≡ false }
        ensures goes { JsonTakesByte self.old (E.stands_for to.old) byte self.new (E.stands_for to.new) (E.takes to.new) result }
        ensures alike { E.alike to.old to.new }
    {
        match byte {
            b'"' => {
                self.begin_text(Role::Value);
                Ok(())
            }
            b'[' => self.open_list(to),
            b'{' => self.open_object(to),
            b'n' => {
                self.begin_word(Literal::Null);
                Ok(())
            }
            b't' => {
                self.begin_word(Literal::True);
                Ok(())
            }
            b'f' => {
                self.begin_word(Literal::False);
                Ok(())
            }
            _ => match Phase::Start.next(byte) {
                Some(phase) => {
                    self.begin_number(byte, phase)?;
                    Ok(())
                }
                None => return Err(SyntaxRefusal::Bad(0)),
            },
        }
    }

    fn first_entry<E: EventSink>(&mut self, byte: u8, to: &mut E) -> Result<(), SyntaxRefusal>
        requires sound { JsonIsSound self.old }
        requires placed { JsonIsPlaced self.old (E.stands_for to.old) (E.takes to.old) }
        requires place { self.old.place ≡ JsonPlace.FirstEntry }
        requires black { is_whitespace byte ≡ false }
        ensures goes { JsonTakesByte self.old (E.stands_for to.old) byte self.new (E.stands_for to.new) (E.takes to.new) result }
        ensures alike { E.alike to.old to.new }
    {
        if byte == b']' {
            self.close_list(to)?;
            Ok(())
        } else {
            self.place = JsonPlace::Value;
            self.value(byte, to)
        }
    }

    fn next_key(&mut self, byte: u8) -> Result<(), SyntaxRefusal>
        requires place { self.old.place ≡ JsonPlace.NextKey }
        requires black { is_whitespace byte ≡ false }
        ensures { JsonStepsByte self.old byte self.new result }
    {
        if byte == b'"' {
            self.begin_text(Role::Key);
            Ok(())
        } else {
            Err(SyntaxRefusal::Bad(0))
        }
    }

    fn first_key<E: EventSink>(&mut self, byte: u8, to: &mut E) -> Result<(), SyntaxRefusal>
        requires sound { JsonIsSound self.old }
        requires placed { JsonIsPlaced self.old (E.stands_for to.old) (E.takes to.old) }
        requires place { self.old.place ≡ JsonPlace.FirstKey }
        requires black { is_whitespace byte ≡ false }
        ensures goes { JsonTakesByte self.old (E.stands_for to.old) byte self.new (E.stands_for to.new) (E.takes to.new) result }
        ensures alike { E.alike to.old to.new }
    {
        if byte == b'}' {
            self.close_object(to)?;
            Ok(())
        } else {
            self.place = JsonPlace::NextKey;
            self.next_key(byte)
        }
    }

    fn colon(&mut self, byte: u8) -> Result<(), SyntaxRefusal>
        requires place { self.old.place ≡ JsonPlace.Colon }
        requires black { is_whitespace byte ≡ false }
        ensures { JsonStepsByte self.old byte self.new result }
    {
        if byte == b':' {
            self.place = JsonPlace::Value;
            Ok(())
        } else {
            Err(SyntaxRefusal::Bad(0))
        }
    }

    // A byte that is no whitespace behind an entry of a list.
    fn after_entry<E: EventSink>(&mut self, byte: u8, to: &mut E) -> Result<(), SyntaxRefusal>
        requires sound { JsonIsSound self.old }
        requires placed { JsonIsPlaced self.old (E.stands_for to.old) (E.takes to.old) }
        requires place { self.old.place ≡ JsonPlace.After }
        requires inside { IsIn OpenKind.List (lists_of self.old) }
        requires black { is_whitespace byte ≡ false }
        ensures goes { JsonTakesByte self.old (E.stands_for to.old) byte self.new (E.stands_for to.new) (E.takes to.new) result }
        ensures alike { E.alike to.old to.new }
    {
        if byte == b',' {
            self.place = JsonPlace::Value;
            Ok(())
        } else if byte == b']' {
            self.close_list(to)?;
            Ok(())
        } else {
            Err(SyntaxRefusal::Bad(0))
        }
    }

    // A byte that is no whitespace behind a pair of an object.
    fn after_pair<E: EventSink>(&mut self, byte: u8, to: &mut E) -> Result<(), SyntaxRefusal>
        requires sound { JsonIsSound self.old }
        requires placed { JsonIsPlaced self.old (E.stands_for to.old) (E.takes to.old) }
        requires place { self.old.place ≡ JsonPlace.After }
        requires inside { IsIn OpenKind.Object (lists_of self.old) }
        requires black { is_whitespace byte ≡ false }
        ensures goes { JsonTakesByte self.old (E.stands_for to.old) byte self.new (E.stands_for to.new) (E.takes to.new) result }
        ensures alike { E.alike to.old to.new }
    {
        if byte == b',' {
            self.place = JsonPlace::NextKey;
            Ok(())
        } else if byte == b'}' {
            self.close_object(to)?;
            Ok(())
        } else {
            Err(SyntaxRefusal::Bad(0))
        }
    }

    // A byte that is no whitespace behind a value.
    #[tactic(auto, using(crate::proofs::Readers::first_is))]
    fn after<E: EventSink>(&mut self, byte: u8, to: &mut E) -> Result<(), SyntaxRefusal>
        requires sound { JsonIsSound self.old }
        requires placed { JsonIsPlaced self.old (E.stands_for to.old) (E.takes to.old) }
        requires place { self.old.place ≡ JsonPlace.After }
        requires black { is_whitespace byte ≡ false }
        ensures goes { JsonTakesByte self.old (E.stands_for to.old) byte self.new (E.stands_for to.new) (E.takes to.new) result }
        ensures alike { E.alike to.old to.new }
    {
        match self.lists.innermost() {
            Some(OpenKind::List) => self.after_entry(byte, to),
            Some(OpenKind::Object) => self.after_pair(byte, to),
            None => Err(SyntaxRefusal::Bad(0)),
        }
    }

    // Any byte behind a value.
    pub(super) fn behind<E: EventSink>(&mut self, byte: u8, to: &mut E) -> Result<(), SyntaxRefusal>
        requires sound { JsonIsSound self.old }
        requires placed { JsonIsPlaced self.old (E.stands_for to.old) (E.takes to.old) }
        requires place { self.old.place ≡ JsonPlace.After }
        ensures goes { JsonTakesByte self.old (E.stands_for to.old) byte self.new (E.stands_for to.new) (E.takes to.new) result }
        ensures alike { E.alike to.old to.new }
    {
        if Whitespace::has(byte) {
            Ok(())
        } else {
            self.after(byte, to)
        }
    }

    // Whether the byte may come behind a value here. It is asked before a number is handed on.
    #[inline(always)]
    pub(super) fn may_follow(&self, byte: u8) -> bool
        ensures { MayFollow self.now byte result }
    {
        if Whitespace::has(byte) {
            return true;
        }
        match self.lists.innermost() {
            Some(OpenKind::List) => follows_entry(byte),
            Some(OpenKind::Object) => follows_pair(byte),
            None => false,
        }
    }

    // A byte that is no whitespace, between two tokens.
    fn token<E: EventSink>(&mut self, byte: u8, to: &mut E) -> Result<(), SyntaxRefusal>
        requires sound { JsonIsSound self.old }
        requires placed { JsonIsPlaced self.old (E.stands_for to.old) (E.takes to.old) }
        requires between { TakesWhitespace (json_state self.old).place }
        requires black { is_whitespace byte ≡ false }
        ensures goes { JsonTakesByte self.old (E.stands_for to.old) byte self.new (E.stands_for to.new) (E.takes to.new) result }
        ensures alike { E.alike to.old to.new }
    {
        match self.place {
            JsonPlace::Value => self.value(byte, to),
            JsonPlace::FirstEntry => self.first_entry(byte, to),
            JsonPlace::FirstKey => self.first_key(byte, to),
            JsonPlace::NextKey => self.next_key(byte),
            JsonPlace::Colon => self.colon(byte),
            JsonPlace::After => self.after(byte, to),
            JsonPlace::Word(_, _) | JsonPlace::Number(_) | JsonPlace::Text(_) => unreachable!(),
        }
    }

    // Bytes between two tokens: a run of whitespace, or one byte of a token.
    #[tactic(auto, using(crate::proofs::Turns::refused_first))]
    pub(super) fn between<E: EventSink>(
        &mut self,
        bytes: &[u8],
        to: &mut E,
    ) -> Result<usize, SyntaxRefusal>
        requires sound { JsonIsSound self.old }
        requires placed { JsonIsPlaced self.old (E.stands_for to.old) (E.takes to.old) }
        requires between { TakesWhitespace (json_state self.old).place }
        requires some { 0 < length bytes.now }
        ensures goes { JsonTakesPrefix self.old (E.stands_for to.old) bytes.now self.new (E.stands_for to.new) (E.takes to.new) result }
        ensures alike { E.alike to.old to.new }
    {
        if Whitespace::has(bytes[0]) {
            return Ok(1 + run_len::<Whitespace>(&bytes[1..]));
        }
        match self.token(bytes[0], to) {
            Ok(()) => Ok(1),
            Err(refusal) => Err(refusal),
        }
    }
}
