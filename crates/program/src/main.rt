// The file program: rules from standard input, their forms to standard output. What the bytes become is the crate `stream`; here they are
// only moved, in pieces of 64 KiB.
#![tactic(auto)]

ghost use Rattle.std.specs.Prelude.{◌≡◌, ◌≤◌, ◌<◌, ◌^◌, length, IfOk, OnOk, Some};
ghost use Rattle.std.specs.Io.KnownBytes.{Appends};
ghost use Rattle.definitions.specs.Bytes.{Bytes};
ghost use Rattle.definitions.specs.Limits.{house, published};
ghost use Rattle.definitions.specs.Program.{program};
ghost use Rattle.stream.specs.Machine.{at, room, last_print};
ghost use Rattle.stream.specs.Feeding.{told, through};
ghost use Rattle.stream.specs.Pushing.{print_room};
ghost use Rattle.program.specs.Written.{Written};

use std::io;
use std::io::{Read, Write};
use stream::machine::State;

// Feeds a piece to its end, and writes out what each push prints; stops where a write fails.
fn feed<W: Write>(
    sink: &mut W,
    state: State,
    kept: &mut [u8],
    piece: &[u8],
    out: &mut [u8],
    work: &mut [u8],
) -> io::Result<State>
    ensures moves { IfOk result (λ s. at s kept.new ≡ (through (at state kept.old) piece.now).machine) }
    ensures writes { OnOk result (print_room ≤ length out.old → length work.old ≡ published house
        → Appends (W.contents sink.old) (W.contents sink.new) (through (at state kept.old) piece.now).output) }
{
    let mut now = state;
    let mut from = 0;
    // Each push says where the piece is to be read on.
    while from < piece.len() {
        let pushed = stream::push(now, kept, piece, from, out, work);
        now = pushed.state;
        from = pushed.next;
        sink.write_all(&out[..pushed.wrote])?;
    }
    Ok(now)
}

// Feeds all that the source gives, piece by piece, and gives the state at its end.
fn pump<R: Read, W: Write>(
    source: &mut R,
    sink: &mut W,
    kept: &mut [u8],
    out: &mut [u8],
    work: &mut [u8],
) -> io::Result<State>
    ensures { IfOk result (λ s. (input : Bytes) → R.remaining source.old ≡ Some input → length input < 2 ^ 64
        → room ≤ length kept.old → print_room ≤ length out.old → length work.old ≡ published house
        → Written (W.contents sink.old) (W.contents sink.new) (told (last_print (at s kept.new))) (program house input)) }
{
    let mut piece = [0u8; 65536];
    let mut state = stream::begin();
    // A proved loop has to end, and nothing says that the input does: it counts up to a number that no run uses up.
    for _turn in 0..u64::MAX {
        let n = source.read(&mut piece)?;
        if n == 0 {
            return Ok(state);
        }
        state = feed(sink, state, kept, &piece[..n], out, work)?;
    }
    Ok(state)
}

// The file program: where the bytes that the source gives are known, and those that the sink holds, the sink has gained what the program
// prints for them.
fn run<R: Read, W: Write>(source: &mut R, sink: &mut W) -> io::Result<()>
    ensures { OnOk result ((input : Bytes) → R.remaining source.old ≡ Some input → length input < 2 ^ 64
        → Appends (W.contents sink.old) (W.contents sink.new) (program house input)) }
{
    let mut kept = [0u8; stream::KEPT];
    let mut out = [0u8; stream::ROOM];
    let mut work = [0u8; stream::WORK];
    let state = pump(source, sink, &mut kept, &mut out, &mut work)?;
    let wrote = stream::finish(state, &kept, &mut out, &mut work);
    sink.write_all(&out[..wrote])
}

fn main(rt: HostRuntime) -> io::Result<()> {
    run(&mut rt.stdin(), &mut rt.stdout())
}
