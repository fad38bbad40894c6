// The records of the list, read one by one.
use crate::case::{Case, Outcome};
use crate::report::Report;
use crate::slots::Slots;
use std::io::Read;

// More records than a list has.
const MOST: usize = 1000000;

// The most bytes behind a head.
const ROOM: usize = 65536;

#[derive(Clone, Copy)]
struct Head {
    kind: u8,
    small: u8,
    words: u16,
}

impl Head {
    // The head of the next record. None at the end of the list: where it is 0, the input ends or a read fails.
    fn read(source: &mut impl Read) -> Option<Head> {
        let mut head = [0; 8];
        source.read_exact(&mut head).ok()?;
        let [kind, small, low, high, ..] = head;
        if kind == 0 {
            return None;
        }
        Some(Head {
            kind,
            small,
            words: u16::from_le_bytes([low, high]),
        })
    }
}

// What a record comes to.
enum Record<'a> {
    Group(&'a [u8]),
    Numbers,
    Case(Outcome),
}

// None where it is not understood.
fn read<'a, R: Read>(
    source: &mut R,
    head: Head,
    room: &'a mut [u8; ROOM],
    slots: &mut Slots,
) -> Option<Record<'a>> {
    let small = usize::from(head.small);
    let bytes = room.get_mut(..usize::from(head.words) * 8)?;
    source.read_exact(bytes).ok()?;
    let (words, _) = bytes.as_chunks();
    // The letters of the list's format; an enum would only name the three once more.
    match head.kind {
        b'g' => Some(Record::Group(bytes.get(..small)?)),
        b'n' => {
            slots.put(small, words)?;
            Some(Record::Numbers)
        }
        b'c' => Some(Record::Case(Case::read(words)?.run(slots)?)),
        _ => None,
    }
}

// To the end of the list, or so many records.
pub(crate) fn replay(rt: &impl Print, source: &mut impl Read) {
    let mut room = [0; ROOM];
    let mut slots = Slots::new();
    let mut report = Report::new();
    for _ in 0..MOST {
        let Some(head) = Head::read(source) else {
            break;
        };
        match read(source, head, &mut room, &mut slots) {
            Some(Record::Group(name)) => report.group(rt, name),
            Some(Record::Numbers) => {}
            Some(Record::Case(outcome)) => report.case(rt, outcome),
            None => report.not_understood(rt),
        }
    }
    report.end(rt);
}
