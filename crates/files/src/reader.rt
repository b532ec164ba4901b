//! A reader over the bytes of a file, which goes from section to section and copies nothing.
ghost use Rattle.std.specs.Prelude.{◌≤◌, length};

mod steps;

/// A file with the place that is read next.
#[derive(Drop)]
pub struct Reader<'a> {
    file: &'a [u8],
    place: usize,
    ghost within: { place ≤ length file.now },
}
