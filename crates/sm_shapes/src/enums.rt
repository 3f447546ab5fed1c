// The values of an enum or an intEnum: the rows of a table that have them share them, and each is found by halves.
ghost use Rattle.std.specs.Prelude.{◌≡◌, ◌||◌, ℕ, ℤ, List, [], IfOk, OnOk};
ghost use Rattle.std.specs.BTreeSet.{contains, contains_text};
ghost use Rattle.std.specs.List.{list_any};
ghost use Rattle.std.specs.Ordering.{int_cmp, int_eq};
ghost use Rattle.std.specs.Str.{bytes_eq};

use sm_tree::{NoMemory, Text};
use std::alloc::Global;
use std::collections::BTreeSet;
use std::marker::Model;
use std::rc::Rc;

/// Texts, and the set of them. Contracts see the list.
#[derive(Debug, Drop)]
pub(crate) struct KnownTexts {
    /// The texts, in order.
    texts: Vec<Text>,
    /// What stands among them.
    known: BTreeSet<String>,
    ghost knows: { (u : List ℕ) → contains_text known u ≡ list_any (λ w. bytes_eq w u) texts.items },
}

impl Model for KnownTexts {
    ghost use Rattle.std.specs.Prelude.{List, ℕ};

    ghost Value = { List (List ℕ) };

    ghost view = { λ a. a.texts.items };
}

// Puts a text into a set.
fn put_text(alloc: Global, known: &mut BTreeSet<String>, text: &str) -> Result<(), NoMemory>
    ensures { OnOk result ((u : List ℕ) → contains_text known.new u ≡ (contains_text known.old u || bytes_eq text.now u)) }
{
    let copy = String::from_str(alloc, text)?;
    known.insert(copy)?;
    Ok(())
}

// The set of texts. n log n.
fn known_texts(alloc: Global, texts: &[Text]) -> Result<BTreeSet<String>, NoMemory>
    ensures { IfOk result (λ known. (u : List ℕ) → contains_text known u ≡ list_any (λ w. bytes_eq w u) texts.now) }
{
    let mut known: BTreeSet<String> = BTreeSet::new(alloc);
    for text in texts {
        put_text(alloc, &mut known, text.as_str())?;
    }
    Ok(known)
}

impl KnownTexts {
    // The texts of a vector, with their set. n log n.
    fn new(alloc: Global, texts: Vec<Text>) -> Result<Self, NoMemory>
        ensures { IfOk result (λ all. all ≡ texts.items) }
    {
        let known = known_texts(alloc, texts.as_slice())?;
        Ok(KnownTexts { texts, known })
    }

    // The texts, in order.
    fn as_slice(&self) -> &[Text]
        ensures { result.now ≡ self.now }
    {
        self.texts.as_slice()
    }

    // Whether a text is one of them. log n, no memory.
    fn has(&self, text: &str) -> bool
        ensures { result ≡ list_any (λ w. bytes_eq w text.now) self.now }
    {
        self.known.contains(text)
    }
}

/// The texts of an enum, in order. Contracts see a list.
#[derive(Debug, Drop)]
pub struct Texts {
    // What the rows share: nothing, where there are no texts.
    shared: Option<Rc<KnownTexts>>,
}

impl Model for Texts {
    ghost use Rattle.std.specs.Prelude.{List, ℕ};
    ghost use Rattle.sm_shapes.specs.SharedView.{shared_list};

    ghost Value = { List (List ℕ) };

    ghost view = { λ a. shared_list a.shared };
}

impl Texts {
    /// No texts. No memory.
    pub fn none() -> Self
        ensures { result ≡ [] }
    {
        Texts { shared: None }
    }

    /// The texts of a vector. n log n; no memory where there are none.
    pub fn new(alloc: Global, texts: Vec<Text>) -> Result<Self, NoMemory>
        ensures { IfOk result (λ all. all ≡ texts.items) }
    {
        if texts.is_empty() {
            return Ok(Texts { shared: None });
        }
        let known = KnownTexts::new(alloc, texts)?;
        match Rc::new(alloc, known) {
            Ok(block) => Ok(Texts {
                shared: Some(block),
            }),
            Err(_) => Err(NoMemory),
        }
    }

    /// These texts for one row more. No memory: it is refused only where no more rows can be counted.
    pub fn share(&self) -> Result<Self, NoMemory>
        ensures { IfOk result (λ all. all ≡ self.now) }
    {
        match &self.shared {
            None => Ok(Texts { shared: None }),
            Some(block) => match block.clone() {
                Ok(block) => Ok(Texts {
                    shared: Some(block),
                }),
                Err(_) => Err(NoMemory),
            },
        }
    }

    /// The texts, in order. No memory.
    pub fn as_slice(&self) -> &[Text]
        ensures { result.now ≡ self.now }
    {
        match &self.shared {
            None => &[],
            Some(block) => block.as_ref().as_slice(),
        }
    }

    /// Whether a text is one of them. log n, no memory.
    pub fn has(&self, text: &str) -> bool
        ensures { result ≡ list_any (λ w. bytes_eq w text.now) self.now }
    {
        match &self.shared {
            None => false,
            Some(block) => block.as_ref().has(text),
        }
    }
}

/// Whole numbers, and the set of them. Contracts see the list.
#[derive(Debug, Drop)]
pub(crate) struct KnownNumbers {
    /// The numbers, in order.
    numbers: Vec<i64>,
    /// What stands among them.
    known: BTreeSet<i64>,
    ghost knows: { (z : ℤ) → contains int_cmp known z ≡ list_any (λ w. int_eq w z) numbers.items },
}

impl Model for KnownNumbers {
    ghost use Rattle.std.specs.Prelude.{List, ℤ};

    ghost Value = { List ℤ };

    ghost view = { λ a. a.numbers.items };
}

// Puts a number into a set.
fn put_number(known: &mut BTreeSet<i64>, number: i64) -> Result<(), NoMemory>
    ensures { OnOk result ((z : ℤ) → contains int_cmp known.new z ≡ (contains int_cmp known.old z || int_eq number z)) }
{
    match known.insert(number) {
        Ok(_) => Ok(()),
        Err(_) => Err(NoMemory),
    }
}

// The set of numbers. n log n.
fn known_numbers(alloc: Global, numbers: &[i64]) -> Result<BTreeSet<i64>, NoMemory>
    ensures { IfOk result (λ known. (z : ℤ) → contains int_cmp known z ≡ list_any (λ w. int_eq w z) numbers.now) }
{
    let mut known: BTreeSet<i64> = BTreeSet::new(alloc);
    for number in numbers {
        put_number(&mut known, *number)?;
    }
    Ok(known)
}

impl KnownNumbers {
    // The numbers of a vector, with their set. n log n.
    fn new(alloc: Global, numbers: Vec<i64>) -> Result<Self, NoMemory>
        ensures { IfOk result (λ all. all ≡ numbers.items) }
    {
        let known = known_numbers(alloc, numbers.as_slice())?;
        Ok(KnownNumbers { numbers, known })
    }

    // The numbers, in order.
    fn as_slice(&self) -> &[i64]
        ensures { result.now ≡ self.now }
    {
        self.numbers.as_slice()
    }

    // Whether a number is one of them. log n, no memory.
    fn has(&self, number: i64) -> bool
        ensures { result ≡ list_any (λ w. int_eq w number) self.now }
    {
        self.known.contains(&number)
    }
}

/// The numbers of an intEnum, in order. Contracts see a list.
#[derive(Debug, Drop)]
pub struct Numbers {
    // What the rows share: nothing, where there are no numbers.
    shared: Option<Rc<KnownNumbers>>,
}

impl Model for Numbers {
    ghost use Rattle.std.specs.Prelude.{List, ℤ};
    ghost use Rattle.sm_shapes.specs.SharedView.{shared_list};

    ghost Value = { List ℤ };

    ghost view = { λ a. shared_list a.shared };
}

impl Numbers {
    /// No numbers. No memory.
    pub fn none() -> Self
        ensures { result ≡ [] }
    {
        Numbers { shared: None }
    }

    /// The numbers of a vector. n log n; no memory where there are none.
    pub fn new(alloc: Global, numbers: Vec<i64>) -> Result<Self, NoMemory>
        ensures { IfOk result (λ all. all ≡ numbers.items) }
    {
        if numbers.is_empty() {
            return Ok(Numbers { shared: None });
        }
        let known = KnownNumbers::new(alloc, numbers)?;
        match Rc::new(alloc, known) {
            Ok(block) => Ok(Numbers {
                shared: Some(block),
            }),
            Err(_) => Err(NoMemory),
        }
    }

    /// These numbers for one row more. No memory: it is refused only where no more rows can be counted.
    pub fn share(&self) -> Result<Self, NoMemory>
        ensures { IfOk result (λ all. all ≡ self.now) }
    {
        match &self.shared {
            None => Ok(Numbers { shared: None }),
            Some(block) => match block.clone() {
                Ok(block) => Ok(Numbers {
                    shared: Some(block),
                }),
                Err(_) => Err(NoMemory),
            },
        }
    }

    /// The numbers, in order. No memory.
    pub fn as_slice(&self) -> &[i64]
        ensures { result.now ≡ self.now }
    {
        match &self.shared {
            None => &[],
            Some(block) => block.as_ref().as_slice(),
        }
    }

    /// Whether a number is one of them. log n, no memory.
    pub fn has(&self, number: i64) -> bool
        ensures { result ≡ list_any (λ w. int_eq w number) self.now }
    {
        match &self.shared {
            None => false,
            Some(block) => block.as_ref().has(number),
        }
    }
}
