// How many bytes a call in memory moves.
ghost use Rattle.std.specs.Prelude.{◌≡◌};
ghost use Rattle.rb_io.specs.Pieces.{moved as moved_of};

/// As many as were asked for, but no more than a call's most, and no more than there are.
pub(crate) fn moved(asked: usize, most: usize, there: usize) -> usize
    ensures { result ≡ moved_of asked most there }
{
    asked.min(most).min(there)
}
