// Bytes from a reader: read until there is no more room, or the input ends, or a read fails. A read may bring fewer
// bytes than there is room for, and is no end for that. `Failure` tells a read or a write that failed.
#![tactic(auto)]

ghost use Rattle.std.specs.Prelude.{◌≡◌, ◌+◌, ◌<◌, ◌≤◌, ◌^◌, length};
ghost use Rattle.reading.specs.Reading.{after_read, put_behind, Filling};

mod failure;

pub use failure::Failure;
use std::io;
use std::io::Read;

// How many bytes are there after one read: `done` were there, there was room for `room` more, and the read answered
// `got`. None at the end of the input.
#[tactic(auto, using(crate::proofs::Arriving::some_came), unfolding(crate::specs::Reading::after_read))]
fn after_read(done: usize, room: usize, got: io::Result<usize>) -> io::Result<Option<usize>>
    requires { done + room < 2 ^ 64 }
    ensures { result ≡ after_read done room got }
{
    let came = got?;
    if came == 0 {
        return Ok(None);
    }
    Ok(Some(done + came.min(room)))
}

// The first n bytes of a piece, put into the room from `done` on.
fn put(buf: &mut [u8], done: usize, piece: &[u8], n: usize)
    requires fits_room { done + n ≤ length buf.old }
    requires fits_piece { n ≤ length piece.now }
    ensures { buf.new ≡ put_behind done buf.old piece.now n }
{
    buf[done..done + n].copy_from_slice(&piece[..n]);
}

// How many bytes all reads bring. A read is lent a piece and not `buf`, and the bytes that its answer counts are
// copied: what else it does to the piece does not reach `buf`.
#[tactic(auto, using(crate::proofs::Going::going))]
pub fn fill<R: Read>(source: &mut R, buf: &mut [u8]) -> io::Result<usize>
    ensures { Filling buf.old result buf.new }
{
    let mut piece = [0; 4096];
    let mut done = 0;
    // The step is what a read brings, so no range stands for it.
    while done < buf.len() {
        let room = (buf.len() - done).min(4096);
        let got = source.read(&mut piece[..room]);
        let Some(more) = after_read(done, room, got)? else {
            return Ok(done);
        };
        put(buf, done, &piece, more - done);
        done = more;
    }
    Ok(done)
}
