// Services outside of the prelude, and what their closures hold.
ghost use Rattle.std.specs.Prelude.{◌≡◌, ◌↔◌, ℕ, IfOk, OnOk, [], ◌∷◌, false, length, replicate};
ghost use Rattle.std.specs.List.{Contains};
ghost use Rattle.sm_model.specs.GraphView.{IsShapeNumber, maps_of};
ghost use Rattle.sm_model.specs.Reaching.{IsMarked, id_of_number};
ghost use Rattle.sm_select.specs.Ways.{AreWays};
ghost use Rattle.sm_passes.specs.Closures.{IsClosureOf};
ghost use Rattle.sm_passes.specs.steps.Groups.{IsClear};
ghost use Rattle.sm_passes.specs.Owned.{is_own_service, is_service};

use sm_compile::{id_text, kind_of, unmark_all};
use sm_model::{Graph, Kind, Steps, is_in_prelude, no_marks, spread};
use sm_select::Ways;
use sm_tree::NoMemory;
use std::alloc::Global;

/// Whether a service outside of the prelude stands there. No memory.
pub fn is_own_service(graph: &Graph, number: u32) -> bool
    requires { IsShapeNumber graph.now number }
    ensures { result ≡ is_own_service (maps_of graph.now) (id_of_number graph.now number) }
{
    is_service(kind_of(graph, number)) && !is_in_prelude(id_text(graph, number))
}

/// Whether what stands there is a service. No memory.
pub fn is_service(kind: Option<Kind>) -> bool
    ensures { result ≡ is_service kind }
{
    match kind {
        Some(kind) => match kind {
            Kind::Service => true,
            _ => false,
        },
        None => false,
    }
}

/// What is in a closure, as marks of all numbers and as the numbers themselves, each once. Its room serves one closure after the
/// other.
#[derive(Drop)]
pub struct Closure {
    marks: Vec<bool>,
    found: Vec<u32>,
}

impl Closure {
    // Room for the closures of a graph, where nothing is found yet.
    pub(crate) fn new(alloc: Global, graph: &Graph) -> Result<Self, NoMemory>
        ensures { IfOk result (λ closure. IsClear graph.now closure) }
    {
        let marks = no_marks(alloc, graph.count() as usize)?;
        let found = Vec::new(alloc);
        Ok(Closure { marks, found })
    }

    /// What is in it, as marks of all numbers. No memory.
    pub fn marks(&self) -> &[bool]
        ensures { result.now ≡ self.now.marks.items }
    {
        self.marks.as_slice()
    }

    /// The numbers in it, each once, in any order. No memory.
    pub fn numbers(&self) -> &[u32]
        ensures { result.now ≡ self.now.found.items }
    {
        self.found.as_slice()
    }

    // Finds the closure of a service. Each step from what is in it is taken once or twice.
    pub(crate) fn walk(&mut self, graph: &Graph, ways: &Ways, service: u32) -> Result<(), NoMemory>
        requires number { IsShapeNumber graph.now service }
        requires ways { AreWays graph.now ways.now }
        requires clear { IsClear graph.now self.old }
        ensures { OnOk result (IsClosureOf graph.now (service ∷ []) self.new) }
    {
        let steps = &ways.on;
        steps.visit(service, &mut self.marks, &mut self.found)?;
        spread(steps, &mut self.marks, &mut self.found)?;
        Ok(())
    }

    // Takes back the marks of what was found: nothing is in it then.
    pub(crate) fn clear(&mut self)
        requires { (k : ℕ) → Contains self.old.found.items k ↔ IsMarked self.old.marks.items k }
        ensures marks { self.new.marks.items ≡ replicate (length self.old.marks.items) false }
        ensures found { self.new.found.items ≡ [] }
    {
        unmark_all(self.found.as_slice(), &mut self.marks);
        self.found.clear();
    }
}
