//! The numbers of heaps, logs and images.
ghost use Rattle.heap_theorems.specs.Numbers.{HasNumbers};

/// Each constant and each place of an image is the number that `docs/FORMATS.md` gives.
pub fn numbers_are_those_of_the_formats()
    ensures { HasNumbers }
{}
