ghost use Rattle.std.specs.Prelude.{◌≡◌, List};
ghost use Rattle.own_model.specs.declared.history.Entry.{Entry};
ghost use Rattle.turn_model.specs.Start.{Start};

use own_model::Entry;

/// What keeps a history of entries, and what the opening of its store found. It takes no memory to lend the entries.
pub trait Keeps {
    // The entries of the calls made, in the order of their events.
    ghost history: { Self → List Entry };

    // What the opening found and left, which no call changes.
    ghost start: { Self → Start };

    /// Lends the entries, in order.
    fn entries(&self) -> &[Entry]
        ensures { result.now ≡ history self.now };
}
