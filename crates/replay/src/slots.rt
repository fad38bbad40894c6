// What calls are given and what lent memory is filled with, as the list has it so far.

ghost use Rattle.std.specs.Prelude.{◌≡◌, ◌+◌, length};

// Order 65 has its lengths too. Fixed, as what is lent to the library is.
pub(crate) const ROOM: usize = 4225;

type Room = [f64; ROOM];

#[derive(Drop)]
pub(crate) struct Slots([Room; 6]);

impl Slots {
    pub(crate) fn new() -> Slots {
        Slots([[0.0; ROOM]; 6])
    }

    // One that a call can be given numbers from.
    pub(crate) fn given(&self, k: usize) -> Option<&Room> {
        let (_, given) = self.0.split_last()?;
        given.get(k)
    }

    // Puts the numbers of these patterns at the start of slot k: None where there is no room for them.
    pub(crate) fn put(&mut self, k: usize, patterns: &[[u8; 8]]) -> Option<()> {
        let room = self.0.get_mut(k)?.get_mut(..patterns.len())?;
        for (x, pattern) in room.iter_mut().zip(patterns) {
            *x = scalar::of_bits(u64::from_le_bytes(*pattern));
        }
        Some(())
    }

    // What lent memory holds before a call: the numbers of the last slot from this place on, and behind its last those
    // from its first on.
    pub(crate) fn lent(&self, from: usize) -> (&[f64], &[f64])
        ensures { length result.0.now + length result.1.now ≡ 4225 }
    {
        let slot = &self.0[5][..];
        let (behind, first) = slot.split_at(from % ROOM);
        (first, behind)
    }

    // Fills a room of the caller's: one that is handed back would be copied, and stand on the stack twice.
    pub(crate) fn fill(&self, from: usize, room: &mut Room) {
        let (first, behind) = self.lent(from);
        let (front, back) = room.split_at_mut(first.len());
        front.copy_from_slice(first);
        back.copy_from_slice(behind);
    }
}
