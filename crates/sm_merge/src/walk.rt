// Which numbers stand on a ring, and an order in which each comes behind those that it leads to: the strongly connected components of
// links by paths (H. N. Gabow, "Path-based depth-first search for strong and biconnected components", 2000).
//
// What is begun stands in a row, cut into parts: the numbers of a part lead to one another, and each part leads to those behind it. A
// target in the row makes one part of all from its own to the last; a part with no targets left is a component, and is finished.
ghost use Rattle.std.specs.Prelude.{◌≡◌, ◌<◌, ◌≤◌, ◌++◌, ℕ, length, get_or, Some, None, IfOk, OnOk};
ghost use Rattle.sm_merge.specs.declared.walk.Status.TheVariants.{Begun, New};
ghost use Rattle.sm_merge.specs.steps.Links.{AreLinks, At, Links, links_view};
ghost use Rattle.sm_merge.specs.steps.Walking.{AllReach, AreMarked, HasFinished, HasGone, HasTaken, IsIdle, IsMet, IsWalked, IsWalking};
ghost use Rattle.sm_merge.specs.steps.Walking.{KeepsMet, TakesStep, is_ring};

use sm_tree::NoMemory;
use std::alloc::Global;

/// Where the walk is with a number.
#[derive(Clone, Copy)]
pub(crate) enum Status {
    /// It wasn't met.
    New,
    /// It is in the row, at this place.
    Begun(usize),
    /// All that it leads to is finished. Whether it stands on a ring.
    Finished(bool),
}

/// A part of the row.
#[derive(Clone, Copy)]
pub(crate) struct Part {
    /// Where its numbers begin.
    pub numbers: usize,
    /// Where its targets begin.
    pub targets: usize,
    /// Whether its numbers stand on a ring.
    pub ring: bool,
}

/// A walk, as far as it has come.
#[derive(Drop)]
pub(crate) struct Walk {
    /// Where it is with each number.
    pub status: Vec<Status>,
    /// The numbers that are begun.
    pub row: Vec<usize>,
    /// What they lead to, as far as it wasn't followed yet.
    pub targets: Vec<usize>,
    /// The parts of the row.
    pub path: Vec<Part>,
    /// The numbers that are finished, each behind those that it leads to and that stand on no ring.
    pub order: Vec<usize>,
}

/// The walk over all numbers, from each to those that it leads to.
pub(crate) fn walk_through(alloc: Global, links: &[Vec<usize>]) -> Result<Walk, NoMemory>
    requires { AreLinks (links_view links.now) }
    ensures { IfOk result (IsWalked (links_view links.now)) }
{
    let mut walk = Walk::new(alloc, links.len())?;
    for number in 0..links.len() {
        walk.visit(links, number)?;
    }
    Ok(walk)
}

impl Walk {
    /// Whether a number stands on a ring.
    pub(crate) fn is_on_ring(&self, number: usize) -> bool
        requires { number < length self.now.status.items }
        ensures { result ≡ is_ring (get_or self.now.status.items number New) }
    {
        match self.status[number] {
            Status::Finished(ring) => ring,
            Status::New | Status::Begun(_) => false,
        }
    }

    // A walk in which no number was met.
    fn new(alloc: Global, count: usize) -> Result<Self, NoMemory>
        ensures { IfOk result (λ walk. (links : Links) → length links ≡ count → IsIdle links walk) }
    {
        Ok(Walk {
            status: vec![in alloc; Status::New; count]?,
            row: Vec::new(alloc),
            targets: Vec::new(alloc),
            path: Vec::new(alloc),
            order: Vec::with_capacity(alloc, count)?,
        })
    }

    // Follows all that a number leads to, if it wasn't met.
    fn visit(&mut self, links: &[Vec<usize>], number: usize) -> Result<(), NoMemory>
        requires links { AreLinks (links_view links.now) }
        requires number { number < length links.now }
        requires idle { IsIdle (links_view links.now) self.old }
        ensures idle { OnOk result (IsIdle (links_view links.now) self.new) }
        ensures kept { OnOk result (KeepsMet self.old self.new) }
        ensures met { OnOk result (IsMet self.new.status.items number) }
    {
        if let Status::New = self.status[number] {
            self.begin(links, number)?;
            while self.step(links)? {}
        }
        Ok(())
    }

    // One step at the last part. Whether there was one.
    fn step(&mut self, links: &[Vec<usize>]) -> Result<bool, NoMemory>
        requires links { AreLinks (links_view links.now) }
        requires walking { IsWalking (links_view links.now) None self.old }
        ensures { TakesStep (links_view links.now) self.old self.new result }
    {
        let Some(&part) = self.path.last() else {
            return Ok(false);
        };
        if self.targets.len() <= part.targets {
            self.finish(part)?;
            return Ok(true);
        }
        match self.targets.pop() {
            Some(target) => self.follow(links, target)?,
            None => {}
        }
        Ok(true)
    }

    // Follows a target of the last part.
    fn follow(&mut self, links: &[Vec<usize>], target: usize) -> Result<(), NoMemory>
        requires links { AreLinks (links_view links.now) }
        requires taken { HasTaken (links_view links.now) target self.old }
        ensures { OnOk result (HasGone (links_view links.now) self.old self.new) }
    {
        match self.status[target] {
            Status::New => self.begin(links, target),
            Status::Begun(place) => self.join(place),
            Status::Finished(_) => Ok(()),
        }
    }

    // A new number: a part of its own.
    fn begin(&mut self, links: &[Vec<usize>], number: usize) -> Result<(), NoMemory>
        requires links { AreLinks (links_view links.now) }
        requires new { At self.old.status.items number New }
        requires walking { IsWalking (links_view links.now) (Some number) self.old }
        requires reached { AllReach (links_view links.now) self.old.row.items number }
        ensures gone { OnOk result (HasGone (links_view links.now) self.old self.new) }
        ensures met { OnOk result (IsMet self.new.status.items number) }
    {
        self.path.push(Part {
            numbers: self.row.len(),
            targets: self.targets.len(),
            ring: false,
        })?;
        self.status[number] = Status::Begun(self.row.len());
        self.row.push(number)?;
        self.targets.extend_from_slice(links[number].as_slice())?;
        Ok(())
    }

    // A number at this place of the row is led to again: its part and all behind it become one.
    fn join(&mut self, place: usize) -> Result<(), NoMemory>
        ensures { OnOk result ((links : Links) (w : ℕ) → At self.old.status.items w (Begun place) → IsWalking links (Some w) self.old
            → AllReach links self.old.row.items w → HasGone links self.old self.new) }
    {
        while let Some(part) = self.path.pop() {
            if part.numbers <= place {
                self.path.push(Part { ring: true, ..part })?;
                return Ok(());
            }
        }
        Ok(())
    }

    // The last part has no targets left: its numbers are finished.
    fn finish(&mut self, part: Part) -> Result<(), NoMemory>
        requires numbers { part.numbers ≤ length self.old.row.items }
        requires within { (k v : ℕ) → At self.old.row.items k v → v < length self.old.status.items }
        ensures { OnOk result (HasFinished part self.old self.new) }
    {
        self.path.pop();
        let numbers = &self.row[part.numbers..];
        put_finished(numbers, part.ring, &mut self.status, &mut self.order)?;
        self.row.truncate(part.numbers);
        Ok(())
    }
}

// These numbers are finished.
fn put_finished(
    numbers: &[usize],
    ring: bool,
    status: &mut Vec<Status>,
    order: &mut Vec<usize>,
) -> Result<(), NoMemory>
    requires { (k v : ℕ) → At numbers.now k v → v < length status.old.items }
    ensures size { OnOk result (length status.new.items ≡ length status.old.items) }
    ensures marked { OnOk result (AreMarked numbers.now ring status.old.items status.new.items) }
    ensures order { OnOk result (order.new.items ≡ order.old.items ++ numbers.now) }
{
    for number in numbers {
        status[*number] = Status::Finished(ring);
        order.push(*number)?;
    }
    Ok(())
}
