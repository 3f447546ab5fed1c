// Laws of the definitions that the contracts cite. Each is the contract of a function that does nothing.
ghost use Rattle.std.specs.Prelude.{◌≡◌, ◌↔◌, ℕ, List, IsTrue};
ghost use Rattle.sm_tree.specs.declared.tree.Tree.{Tree};
ghost use Rattle.sm_tree.specs.View.{node_of};
ghost use Rattle.sm_tree.specs.Pointer.{TokenReadsBack, TokenHasNoSlash};
ghost use Rattle.sm_tree.specs.Same.{SameToItself, SameBothWays, SameThrough, OneValueAName};
ghost use Rattle.sm_tree.specs.Size.{SameCountsTheSame};
ghost use Rattle.sm_tree.specs.EventLaws.{OneTreeAStream, OneTreeOfStreams, HasStreams};
ghost use Rattle.sm_tree.specs.OpenLevels.{OpensNoMore, KindsAreLevels};

use crate::text::{Bytes, Text};
use crate::tree::Tree;

/// A token of a JSON Pointer, read back as RFC 6901, section 4, says, is the name that it was written for.
#[tactic(auto, using(crate::proofs::Tokens::reads_back))]
pub fn token_reads_back()
    ensures { TokenReadsBack }
{}

/// `/` stands in no token of a JSON Pointer (RFC 6901, section 3), so a pointer is cut into its tokens at each `/`.
#[tactic(auto, using(crate::proofs::Tokens::has_no_slash))]
pub fn token_has_no_slash()
    ensures { TokenHasNoSlash }
{}

/// Each tree is the same as itself.
#[tactic(auto, using(crate::proofs::Sameness::reflexive))]
pub fn same_to_itself()
    ensures { SameToItself }
{}

/// Where one tree is the same as another, the other is the same as the one.
#[tactic(auto, using(crate::proofs::Sameness::symmetric))]
pub fn same_both_ways()
    ensures { SameBothWays }
{}

/// Where one tree is the same as a second, and that as a third, the first is the same as the third.
#[tactic(auto, using(crate::proofs::Sameness::transitive))]
pub fn same_through()
    ensures { SameThrough }
{}

/// Trees that are the same, in whose objects no name repeats, count the same.
#[tactic(auto, using(crate::proofs::SameSizes::same_size))]
pub fn same_counts_the_same()
    ensures { SameCountsTheSame }
{}

/// In an object of a node a name has one value.
#[tactic(auto, using(crate::proofs::Sameness::one_value_each))]
pub fn one_value_a_name()
    ensures { OneValueAName }
{}

/// A stream of events begins with those of one tree at most, so no tree's events begin another's.
#[tactic(auto, using(crate::proofs::Events::events_injective))]
pub fn one_tree_a_stream()
    ensures { OneTreeAStream }
{}

/// A stream is that of one tree, whatever counts its openers have.
#[tactic(auto, using(crate::proofs::Streams::one_tree_of_stream))]
pub fn one_tree_of_streams()
    ensures { OneTreeOfStreams }
{}

/// Each tree has a stream whose openers have no counts, and one in which all have theirs.
#[tactic(auto, using(crate::proofs::Streams::has_streams))]
pub fn has_streams()
    ensures { HasStreams }
{}

/// Where events begin a stream of a tree, no more levels are open than the tree has. The lists and objects that are open are among them.
#[tactic(auto, using(crate::proofs::OpenLevels::opens_no_more, crate::proofs::OpenLevels::kinds_are_levels))]
pub fn opens_no_more()
    ensures within { OpensNoMore }
    ensures kinds { KindsAreLevels }
{}

/// `==` of trees is true exactly where both stand for one node.
#[tactic(auto, using(crate::proofs::Equal::equal_is))]
pub fn equal_trees()
    ensures { (a b : Tree) → IsTrue (⟦<Tree as PartialEq>⟧.eq a b) ↔ (node_of a ≡ node_of b) }
{}

/// `==` of texts, and that of byte strings, is true exactly where the bytes are equal.
#[tactic(auto, using(crate::proofs::Equal::bytes_equal_is))]
pub fn equal_bytes()
    ensures texts { (a b : List ℕ) → IsTrue (⟦<Text as PartialEq>⟧.eq a b) ↔ (a ≡ b) }
    ensures bytes { (a b : List ℕ) → IsTrue (⟦<Bytes as PartialEq>⟧.eq a b) ↔ (a ≡ b) }
{}
