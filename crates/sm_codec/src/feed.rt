// The sink that gives each event of a tree to a decoder, so that a reader may hand them on. It borrows the decoder: had it the decoder
// itself, nothing would be known of the store beside it once the sink is gone.
ghost use Rattle.std.specs.Prelude.{◌≡◌, refl};
ghost use Rattle.std.proofs.Common.{◌∙◌};
ghost use Rattle.sm_shapes.specs.TableView.{table_data};
ghost use Rattle.sm_codec.specs.Codec.{codec_of};
ghost use Rattle.sm_codec.specs.DecodingView.{decoding_of, IsFed};

use crate::Leaves;
use crate::decoder::Decoder;
use sm_shapes::Patterns;
use sm_shapes::tables::Table;
use sm_tree::{Event, EventSink, NoMemory};
use std::alloc::Global;

/// Gives each event to a decoder that is lent to it. After `NoMemory` it is of no use.
#[derive(Drop)]
pub struct Feed<'a, L: Leaves, P: Patterns> {
    /// Where values, frames and paths get their memory.
    pub alloc: Global,
    /// The table of the decoder's shape.
    pub table: &'a Table,
    /// How leaves are spelled.
    pub leaves: &'a L,
    /// The store of the table's patterns.
    pub patterns: &'a mut P,
    /// What takes the events.
    pub decoder: &'a mut Decoder,
}

/// It stands for the events for which its decoder does, over a table that is in order and whose patterns the store has. It takes every
/// event, and none changes the table, the leaves, the store, the decoder's shape, or which store and which decoder they are.
impl<'a, L: Leaves, P: Patterns> EventSink for Feed<'a, L, P> {
    ghost stands_for = { λ f es. IsFed (codec_of (table_data f.table.now) (L.convention f.leaves.now) P.test)
        (P.added f.patterns.now) f.decoder.now es };

    ghost takes = { λ f e. Unit {0} };

    ghost alike = { λ f g. (f.table.now ≡ g.table.now) × (f.leaves.now ≡ g.leaves.now)
        × (P.added f.patterns.now ≡ P.added g.patterns.now) × (P.refused f.patterns.now ≡ P.refused g.patterns.now)
        × (P.refusals f.patterns.now ≡ P.refusals g.patterns.now) × ((decoding_of f.decoder.now).shape ≡ (decoding_of g.decoder.now).shape)
        × (f.patterns.ghost_name ≡ g.patterns.ghost_name) × (f.decoder.ghost_name ≡ g.decoder.ghost_name) };

    fn event(&mut self, event: Event) -> Result<(), NoMemory> {
        self.decoder
            .event(self.alloc, self.table, event, self.leaves, self.patterns)
    }

    ghost alike_itself = { λ f. (refl, refl, refl, refl, refl, refl, refl, refl) };

    ghost alike_then = { λ f g h fg gh. (
      fg.0 ∙ gh.0,
      fg.1 ∙ gh.1,
      fg.2 ∙ gh.2,
      fg.3 ∙ gh.3,
      fg.4 ∙ gh.4,
      fg.5 ∙ gh.5,
      fg.6 ∙ gh.6,
      fg.7 ∙ gh.7,
    ) };
}
