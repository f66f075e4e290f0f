// The file program over pieces of its input. A program lends a buffer for what is kept of a rule, one for what is printed and one for
// work; it pushes each piece until all of it is read, writing out what each push has printed, and at the end calls `finish`.
// Any cutting of the input into pieces gives the same output (specs/Laws/Fed.antt).
#![tactic(auto)]

pub mod machine;
mod print;

ghost use Rattle.std.specs.Prelude.{◌≡◌, length, drop};
ghost use Rattle.stream.specs.Machine.{at, mode, first_line, last_print};
ghost use Rattle.stream.specs.Pushing.{Pushes, Prints};

use machine::State;

// What has to be lent: for what is kept of a rule, for what is printed, and for work.
pub const KEPT: usize = 34845;

pub const ROOM: usize = print::ROOM;

pub const WORK: usize = convert::WORK;

// The state behind a push, where the piece is to be read on, and how many bytes of out were printed.
#[derive(Drop)]
pub struct Pushed {
    pub state: State,
    pub next: usize,
    pub wrote: usize,
}

// The state before the first byte.
pub fn begin() -> State
    ensures { mode result ≡ first_line 0 }
{
    State::First { size: 0 }
}

// Reads on in a piece until something is printed or the piece ends.
pub fn push(
    state: State,
    kept: &mut [u8],
    piece: &[u8],
    from: usize,
    out: &mut [u8],
    work: &mut [u8],
) -> Pushed
    ensures { Pushes (at state kept.old) piece.now from out.old work.old result kept.new out.new work.new }
{
    let mut now = state;
    for i in from..piece.len() {
        let b = piece[i];
        if let Some(label) = machine::opened(now, b) {
            let wrote = print::due(now, kept, out, work);
            return Pushed {
                state: label,
                next: i + 1,
                wrote,
            };
        }
        now = machine::step(now, kept, b);
    }
    Pushed {
        state: now,
        next: from.max(piece.len()),
        wrote: 0,
    }
}

// Prints what is left at the end of the input, and gives how many bytes of out that is.
pub fn finish(state: State, kept: &[u8], out: &mut [u8], work: &mut [u8]) -> usize
    ensures { Prints (last_print (at state kept.now)) out.old work.old result out.new work.new }
{
    print::last(state, kept, out, work)
}
