// How much room a caller lends, so that the reader never wants for a row.
#![tactic(auto)]

ghost use Rattle.std.specs.Prelude.{◌≡◌};
ghost use Rattle.rooms.specs.Rooms.{enough_rows};

// As many node rows, and as many number rows, as a text of so many bytes can need: a reader with this much room answers neither 3 nor 4.
pub fn enough_rows(bytes: usize) -> usize
    ensures { result ≡ enough_rows bytes }
{
    bytes / 2
}
