// Runs of bytes or of words.
ghost use Rattle.std.specs.Prelude.{◌≡◌, length};
ghost use Rattle.text.specs.Copies.{Copied};

// Copies a run to the front of another, as far as that goes. One by one, and not by std's `copy_from_slice`: that calls `memmove`, which an
// archive for C would ask for; the compiler makes the loop as quick.
pub fn copy<T: Copy>(to: &mut [T], from: &[T])
    ensures copies { Copied to.old from.now to.new }
    ensures whole { length from.now ≡ length to.old → to.new ≡ from.now }
{
    for i in 0..to.len().min(from.len()) {
        to[i] = from[i];
    }
}
