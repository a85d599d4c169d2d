ghost use Rattle.std.specs.Prelude.{◌≡◌, ◌<◌, ◌^◌};

use outer_world::{Failed, ReadAllFault, Sink, Source, read_all, write_all};

/// A source and a sink at once that move two bytes a call, count their calls, and fail at the call of one number,
/// counted from 0, alone.
#[derive(Drop)]
struct Counted {
    fails_at: u32,
    calls: u32,
    faults: u64,
    ghost in_range: { faults < 2 ^ 64 },
}

impl Counted {
    fn new(fails_at: u32) -> Counted {
        Counted {
            fails_at,
            calls: 0,
            faults: 0,
        }
    }

    /// Whether the call that comes next fails. Counts it.
    fn fails(&mut self) -> bool
        ensures { self.new.faults ≡ self.old.faults }
    {
        let fails = self.calls == self.fails_at;
        self.calls = self.calls.saturating_add(1);
        fails
    }
}

impl Source for Counted {
    ghost faults = { λ source. source.faults };

    fn read(&mut self, into: &mut [u8]) -> Result<usize, Failed> {
        if self.fails() {
            self.faults = self.faults.saturating_add(1);
            return Err(Failed);
        }
        Ok(into.len().min(2))
    }
}

impl Sink for Counted {
    ghost faults = { λ sink. sink.faults };

    fn write(&mut self, piece: &[u8]) -> Result<usize, Failed> {
        if self.fails() {
            self.faults = self.faults.saturating_add(1);
            return Err(Failed);
        }
        Ok(piece.len().min(2))
    }
}

#[test]
fn no_call_follows_the_first_fault(rt: HostRuntime) {
    for (fails_at, calls) in [(0, 1), (1, 2), (2, 3)] {
        let mut source = Counted::new(fails_at);
        let fault = read_all(rt.alloc(), &mut source, 6).err();
        assert_eq!(rt; fault, Some(ReadAllFault::Failed));
        assert_eq!(rt; source.calls, calls);

        let mut sink = Counted::new(fails_at);
        assert_eq!(rt; write_all(&mut sink, b"abcdef"), Err(Failed));
        assert_eq!(rt; sink.calls, calls);
    }
}
