// Going round the frame.
ghost use Rattle.std.specs.Prelude.{◌≡◌, ◌<◌};
ghost use Rattle.frame.specs.Frame.{next_of};

// The slot after `at` in a frame of f slots.
pub fn next(f: usize, at: usize) -> usize
    requires { at < f }
    ensures { result ≡ next_of f at }
{
    if at + 1 < f { at + 1 } else { 0 }
}
