//! Why no object was made.
use std::alloc::AllocError;

/// Why no object was made.
#[derive(Clone, Copy, Debug, PartialEq, Eq)]
pub enum AreaError {
    /// That many words of the area are in use, and the rest is too few.
    VolatileFull { used: u32 },
    /// Out of memory.
    NoMemory,
}

impl From<AllocError> for AreaError {
    ghost use Rattle.std.specs.Prelude.{◌≡◌};
    ghost use Rattle.volatile_area.specs.declared.area_error.AreaError.TheVariants.{NoMemory};

    ghost from_gives = { λ _ e. e ≡ NoMemory };

    fn from(_refused: AllocError) -> AreaError {
        AreaError::NoMemory
    }
}
