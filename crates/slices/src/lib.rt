// What std has of slices and a proof needs a law of: a write to a place that may lie past the end, and a part that there may not be.
#![tactic(auto)]

ghost use Rattle.std.specs.Prelude.{◌≡◌, set};
ghost use Rattle.slices.specs.Slices.{part_of};

// Past the room's end nothing is written. By its index: after a slice's `get_mut` a proof knows only the length.
pub fn store<T: Copy>(room: &mut [T], at: usize, value: T)
    ensures { room.new ≡ set room.old at value }
{
    if at < room.len() {
        room[at] = value;
    }
}

// A part of a list, or none of it where there is no such part.
pub fn part<T>(list: &[T], start: usize, end: usize) -> &[T]
    ensures { result.now ≡ part_of list.now start end }
{
    list.get(start..end).unwrap_or(&[])
}
