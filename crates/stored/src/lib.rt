// A tree kept as bytes (document 02, 2026-01, 2026-05 and 2026-06): in fields a head with version and counts, then each node, then each number's text. Here are the
// entries of each version and the moves between them, and in proofs the laws of the form over any version.
#![tactic(auto)]

ghost use Rattle.std.specs.Prelude.{length};
ghost use Rattle.store.specs.Rows.{node_room, number_room};
ghost use Rattle.store.specs.Answers.{Leaves, Writes};
ghost use Rattle.stored_form.specs.Form.{version1, version2, stored_of};
ghost use Rattle.stored_form.specs.Reading.{reading_of};
ghost use Rattle.stored_moves.specs.Moving.{moving_of, Moves};

use store::{ReadAnswer, WriteAnswer};
use stored_form::Edition;
use stored_moves::MoveAnswer;

// Kept (2): README and docs/DEMANDS.md name the entry of each version ("Each version has its own entry"); what they do is one function over an Edition, in the crates below.
// Reads stored bytes of version 1 into rows of both slices. Spans point into `bytes`. Every place after the used rows is zero, and on a refusal every
// place.
pub fn read_1(bytes: &[u8], nodes: &mut [u32], numbers: &mut [u32]) -> ReadAnswer
    ensures { Leaves (reading_of version1 (node_room nodes.old) (number_room numbers.old) bytes.now) nodes.old numbers.old result nodes.new numbers.new }
{
    stored_reading::read(bytes, Edition::First, nodes, numbers)
}

// The same of version 2.
pub fn read_2(bytes: &[u8], nodes: &mut [u32], numbers: &mut [u32]) -> ReadAnswer
    ensures { Leaves (reading_of version2 (node_room nodes.old) (number_room numbers.old) bytes.now) nodes.old numbers.old result nodes.new numbers.new }
{
    stored_reading::read(bytes, Edition::Second, nodes, numbers)
}

// Writes a store as stored bytes of version 1; what lies after them in the room is zero.
pub fn write_1(text: &[u8], nodes: &[u32], numbers: &[u32], out: &mut [u8]) -> WriteAnswer
    ensures { Writes (stored_of version1 text.now nodes.now numbers.now) (length out.old) result out.new }
{
    stored_writing::write(text, nodes, numbers, Edition::First, out)
}

// The same of version 2.
pub fn write_2(text: &[u8], nodes: &[u32], numbers: &[u32], out: &mut [u8]) -> WriteAnswer
    ensures { Writes (stored_of version2 text.now nodes.now numbers.now) (length out.old) result out.new }
{
    stored_writing::write(text, nodes, numbers, Edition::Second, out)
}

// Moves stored bytes of version 1 to version 2, with no text at hand. Both slices are left as `read_1` leaves them, and what lies after the bytes in the room is zero; on a
// refusal all of them are zero.
pub fn move_1_to_2(
    bytes: &[u8],
    nodes: &mut [u32],
    numbers: &mut [u32],
    out: &mut [u8],
) -> MoveAnswer
    ensures { Moves (moving_of version1 version2 (node_room nodes.old) (number_room numbers.old) (length out.old) bytes.now) nodes.old numbers.old (length out.old) result nodes.new numbers.new out.new }
{
    stored_writing::move_between(bytes, Edition::First, Edition::Second, nodes, numbers, out)
}

// The way back, from version 2 to version 1.
pub fn move_2_to_1(
    bytes: &[u8],
    nodes: &mut [u32],
    numbers: &mut [u32],
    out: &mut [u8],
) -> MoveAnswer
    ensures { Moves (moving_of version2 version1 (node_room nodes.old) (number_room numbers.old) (length out.old) bytes.now) nodes.old numbers.old (length out.old) result nodes.new numbers.new out.new }
{
    stored_writing::move_between(bytes, Edition::Second, Edition::First, nodes, numbers, out)
}
