// Bytes put one after the other into a lent slice, while there is room.
#![tactic(auto)]

ghost use Rattle.std.specs.Prelude.{◌≡◌, [], ◌∷◌, ◌+◌, ◌≤◌, length};
ghost use Rattle.std.proofs.lemmas.List.Edits.{sets};
ghost use Rattle.store.specs.Answers.{refusal, Writes};
ghost use Rattle.pen.specs.Pen.{end_of, Puts};

use store::WriteAnswer;

// How many bytes stand, and whether a piece had no room. A full pen puts nothing more.
// Kept (1): `Puts` says of a piece without room that the pen stays at its place, and takes full pens too: an Option of a place would say neither.
#[derive(Clone, Copy)]
pub struct Pen {
    pub at: usize,
    pub full: bool,
}

// Where the next `count` bytes end, if there is room for them.
pub fn end_of(out: &[u8], p: Pen, count: usize) -> Option<usize>
    ensures { result ≡ end_of p out.now count }
{
    if p.full | (out.len() < p.at) {
        return None;
    }
    if out.len() - p.at < count {
        return None;
    }
    Some(p.at + count)
}

// Stores a piece from a place on, byte by byte: by `copy_from_slice` the library for C would ask its user for `memmove`.
fn store_piece(out: &mut [u8], at: usize, piece: &[u8])
    requires { at + length piece.now ≤ length out.old }
    ensures { out.new ≡ sets out.old at piece.now }
{
    for i in 0..piece.len() {
        out[at + i] = piece[i];
    }
}

// Puts a whole piece, or nothing.
pub fn put(out: &mut [u8], p: Pen, piece: &[u8]) -> Pen
    ensures { Puts piece.now p out.old result out.new }
{
    match end_of(out, p, piece.len()) {
        Some(end) => {
            store_piece(out, p.at, piece);
            Pen {
                at: end,
                full: false,
            }
        }
        None => Pen {
            at: p.at,
            full: true,
        },
    }
}

// Puts a byte and a piece after it, or nothing. A piece of one byte needs no loop.
pub fn put_led(out: &mut [u8], p: Pen, lead: u8, piece: &[u8]) -> Pen
    ensures { Puts (lead ∷ piece.now) p out.old result out.new }
{
    match end_of(out, p, piece.len() + 1) {
        Some(end) => {
            out[p.at] = lead;
            match piece {
                [b] => out[p.at + 1] = *b,
                _ => store_piece(out, p.at + 1, piece),
            }
            Pen {
                at: end,
                full: false,
            }
        }
        None => Pen {
            at: p.at,
            full: true,
        },
    }
}

pub fn put_byte(out: &mut [u8], p: Pen, b: u8) -> Pen
    ensures { Puts (b ∷ []) p out.old result out.new }
{
    match end_of(out, p, 1) {
        Some(end) => {
            out[p.at] = b;
            Pen {
                at: end,
                full: false,
            }
        }
        None => Pen {
            at: p.at,
            full: true,
        },
    }
}

// A writer refuses: its room is zeroed.
pub fn refuse(out: &mut [u8], number: u32) -> WriteAnswer
    ensures { Writes (refusal number) (length out.old) result out.new }
{
    store::clear_any(out, 0);
    WriteAnswer {
        number,
        place: 0,
        length: 0,
    }
}
