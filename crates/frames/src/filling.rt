//! Tables that are filled from their end downward, the last entry first.
ghost use Rattle.std.specs.Prelude.{◌≡◌, ◌+◌, ◌-◌, ◌<◌, ◌≤◌, ◌∷◌, drop, length, take};
ghost use Rattle.frames.specs.Frames.{Kept};

/// Puts an entry in front of those that stand at the end of a table, from `start` on, and answers where they begin then. Where there is no
/// room in front of them, nothing changes.
pub fn put<T: Copy>(table: &mut [T], start: usize, entry: T) -> usize
    ensures kept { Kept start table.old result table.new }
    ensures put { 0 < start → start ≤ length table.old → (result + 1 ≡ start) × (drop result table.new ≡ entry ∷ drop start table.old) }
{
    if start == 0 || start > table.len() {
        return start;
    }
    table[start - 1] = entry;
    start - 1
}

/// Moves the entries that stand at the end of a table, from `start` on, to its front, and answers how many they are.
pub fn move_to_front<T: Copy>(table: &mut [T], start: usize) -> usize
    ensures length { length table.new ≡ length table.old }
    ensures moved { start ≤ length table.old → (result ≡ length table.old - start) × (take result table.new ≡ drop start table.old) }
{
    let len = table.len();
    if start > len {
        return 0;
    }
    table.copy_within(start.., 0);
    len - start
}
