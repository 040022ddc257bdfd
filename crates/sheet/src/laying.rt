// Parts written into what a host lends.
ghost use Rattle.std.specs.Prelude.{◌≡◌, ◌+◌, ◌≤◌, length};
ghost use Rattle.sheet.specs.Prices.{laid};

// Writes a part from place `at` on, and answers the place after it. No cursor goes along: the steps of a sheet are laid
// downwards, and only the price line upwards.
pub(crate) fn lay<T: Copy>(out: &mut [T], at: usize, part: &[T]) -> usize
    requires { at + length part.now ≤ length out.old }
    ensures place { result ≡ at + length part.now }
    ensures laid { out.new ≡ laid out.old at part.now }
{
    let to = at + part.len();
    out[at..to].copy_from_slice(part);
    to
}
