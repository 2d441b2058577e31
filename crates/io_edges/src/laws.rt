//! What holds of pages and sinks, so that nobody has to look into them.
ghost use Rattle.std.specs.Prelude.{◌≡◌};
ghost use Rattle.io_edges.specs.Laws.{TakingLaw};

use crate::{NullSink, Pages, Sink, SurePages};

/// Sure pages and the sink that keeps nothing never count a fault, so that over both a run ends with no read
/// fault where its pages are there, and with no write fault.
pub fn never_counts(pages: &SurePages, sink: &NullSink)
    ensures pages { ⟦<SurePages as Pages>⟧.faults pages.now ≡ 0 }
    ensures sink { ⟦<NullSink as Sink>⟧.faults sink.now ≡ 0 }
{}

/// What a sink takes in pieces it takes as a whole, whatever the pieces, and an empty one changes nothing.
#[tactic(auto, using(crate::proofs::SinkLemmas::takings))]
pub fn pieces_add_up()
    ensures { TakingLaw }
{}
