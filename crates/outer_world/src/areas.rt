ghost use Rattle.std.specs.Prelude.{◌≡◌};
ghost use Rattle.outer_world.specs.OtherArea.{other_of};

use own_base::Area;

/// The other of the two areas of a disk. Takes no memory.
pub fn other_area(area: Area) -> Area
    ensures { result ≡ other_of area }
{
    match area {
        Area::A => Area::B,
        Area::B => Area::A,
    }
}
