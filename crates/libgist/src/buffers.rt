//! Filling a caller's buffer as far as it goes.
ghost use Rattle.std.specs.Prelude.{◌≡◌, map};
ghost use Rattle.search.specs.Fills.{written_over};

use map::Form;

/// Copies as many items as fit into a buffer, from its first place on.
pub fn write_over<T: Copy>(buffer: &mut [T], items: &[T])
    ensures { buffer.new ≡ written_over items.now buffer.old }
{
    let fitting = items.len().min(buffer.len());
    buffer[..fitting].copy_from_slice(&items[..fitting]);
}

/// Writes as many items as fit into a buffer, each in a form.
pub fn write_as<X: Copy, T: Copy, F: Form<X, T>>(buffer: &mut [T], items: &[X])
    ensures { buffer.new ≡ written_over (map F.form_of items.now) buffer.old }
{
    let fitting = items.len().min(buffer.len());
    for place in 0..fitting {
        buffer[place] = F::form(items[place]);
    }
}
