// A case: a call, and what it must come to.
use crate::answer::Stored;
use crate::slots::{ROOM, Slots};
use calls::{Call, Entry};
use std::fmt;

// What is left in a lent slice: a slot is one of those that a call is given numbers from.
#[derive(Clone, Copy)]
enum Left {
    AsBefore,
    Nan,
    Zero,
    Slot(usize),
}

impl From<u64> for Left {
    fn from(word: u64) -> Left {
        match word {
            0 => Left::AsBefore,
            1 => Left::Nan,
            2 => Left::Zero,
            _ => Left::Slot((word - 3) as usize),
        }
    }
}

// A slice that is lent: its length, the place of slot 5 from which it is filled, and what is left in it.
#[derive(Clone, Copy)]
struct Lent {
    len: usize,
    from: usize,
    left: Left,
}

impl Lent {
    // The first place that does not hold what is expected. For a slot that there is not it is 9999, which no slice
    // has: that number is printed.
    fn unlike(&self, came: &[f64], slots: &Slots) -> Option<usize> {
        match self.left {
            Left::AsBefore => {
                let (first, behind) = slots.lent(self.from);
                unlike(came, first, behind)
            }
            Left::Nan => other_than(came, 0x7ff8_0000_0000_0000),
            Left::Zero => other_than(came, 0),
            Left::Slot(k) => match slots.given(k) {
                Some(numbers) => unlike(came, numbers, &[]),
                None => Some(9999),
            },
        }
    }
}

// The first place where a slice has a number of another pattern than two others have, one behind the other.
fn unlike(v: &[f64], first: &[f64], behind: &[f64]) -> Option<usize> {
    v.iter()
        .zip(first.iter().chain(behind))
        .position(|(x, y)| scalar::bits_of(*x) != scalar::bits_of(*y))
}

// The first place of a number that has not this pattern.
fn other_than(v: &[f64], pattern: u64) -> Option<usize> {
    v.iter().position(|x| scalar::bits_of(*x) != pattern)
}

#[derive(Clone, Copy)]
pub(crate) struct Case {
    call: Call,
    // the slot with what is given, and how many numbers of it
    slot: usize,
    count: usize,
    answer: Stored,
    lent: [Lent; 3],
}

// `Entry` is of another crate, so this can't be a `TryFrom`.
fn entry_of(number: u64) -> Option<Entry> {
    match number {
        1 => Some(Entry::WithQ),
        2 => Some(Entry::WithoutQ),
        3 => Some(Entry::Real),
        4 => Some(Entry::Complex),
        5 => Some(Entry::Plain),
        6 => Some(Entry::Root),
        _ => None,
    }
}

impl Case {
    // A word that is missing is 0. None where there is no such entry.
    pub(crate) fn read(record: &[[u8; 8]]) -> Option<Case> {
        let mut words = [[0; 3]; 6];
        for (word, bytes) in words.as_flattened_mut().iter_mut().zip(record) {
            *word = u64::from_le_bytes(*bytes);
        }
        let [
            [entry, slot, count],
            [order, tolerance, budget],
            [len_x, len_y, len_z],
            answer,
            [left_x, left_y, left_z],
            [from_x, from_y, from_z],
        ] = words;
        let lent = |len: u64, from: u64, left: u64| Lent {
            len: len as usize,
            from: from as usize,
            left: Left::from(left),
        };
        Some(Case {
            call: Call {
                entry: entry_of(entry)?,
                order: order as usize,
                tolerance: scalar::of_bits(tolerance),
                budget,
            },
            slot: slot as usize,
            count: count as usize,
            answer: Stored(answer),
            lent: [
                lent(len_x, from_x, left_x),
                lent(len_y, from_y, left_y),
                lent(len_z, from_z, left_z),
            ],
        })
    }

    // None where there is no such slot, or no room.
    pub(crate) fn run(&self, slots: &Slots) -> Option<Outcome> {
        let given = slots.given(self.slot)?.get(..self.count)?;
        let [x, y, z] = &self.lent;
        let mut in_x = [0.0; ROOM];
        let mut in_y = [0.0; ROOM];
        let mut in_z = [0.0; ROOM];
        slots.fill(x.from, &mut in_x);
        slots.fill(y.from, &mut in_y);
        slots.fill(z.from, &mut in_z);
        let in_x = in_x.get_mut(..x.len)?;
        let in_y = in_y.get_mut(..y.len)?;
        let in_z = in_z.get_mut(..z.len)?;
        let came = Stored::from(calls::run(self.call, given, in_x, in_y, in_z));
        Some(Outcome {
            entry: self.call.entry,
            came,
            differences: Differences {
                answer: (came != self.answer).then_some(came),
                places: [
                    x.unlike(in_x, slots),
                    y.unlike(in_y, slots),
                    z.unlike(in_z, slots),
                ],
            },
        })
    }
}

// How a case went.
#[derive(Clone, Copy)]
pub(crate) struct Outcome {
    pub(crate) entry: Entry,
    pub(crate) came: Stored,
    pub(crate) differences: Differences,
}

// What differs from what is expected: the answer, and of each slice the first place.
#[derive(Clone, Copy, Default, PartialEq, Eq)]
pub(crate) struct Differences {
    answer: Option<Stored>,
    places: [Option<usize>; 3],
}

impl fmt::Display for Differences {
    fn fmt<W: fmt::Write>(&self, f: &mut fmt::Formatter<W>) -> fmt::Result {
        if let Some(came) = self.answer {
            write!(f, "answer {came}, ")?;
        }
        for (k, place) in (1..4).zip(self.places) {
            if let Some(place) = place {
                write!(f, "slice {k} at {place}, ")?;
            }
        }
        Ok(())
    }
}
