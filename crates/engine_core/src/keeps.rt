ghost use Rattle.engine_core.specs.Seen.{start_of};

use crate::engine::Engine;
use outer_world::Disk;
use own_model::Entry;
use turn_model::Keeps;

impl<D: Disk> Keeps for Engine<D> {
    ghost history = { λ engine. engine.history };

    ghost start = { λ engine. start_of D.moment D.honest D.faults engine };

    fn entries(&self) -> &[Entry] {
        self.history()
    }
}
