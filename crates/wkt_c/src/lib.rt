// The entries for C, and for every language that calls as C does. A slice goes as a pointer and a length, and an
// answer goes into four places that the caller lends, that of a move into five, so that no struct is passed.
#![tactic(auto)]

ghost use Rattle.std.specs.Prelude.{◌≡◌, length};
ghost use Rattle.store.specs.Rows.{node_room, number_room};
ghost use Rattle.grammar.specs.Reading.{reading};
ghost use Rattle.wkt.specs.Leaves.{outcome_of};
ghost use Rattle.to_wkt.specs.Canonical.{store_text};
ghost use Rattle.to_wkt.specs.Write.{output_of};
ghost use Rattle.stored_form.specs.Form.{version1, version2, version_of, stored_of};
ghost use Rattle.stored_form.specs.Reading.{reading_of};
ghost use Rattle.stored_moves.specs.Moving.{moving_of};
ghost use Rattle.bounds.specs.Bounds.{box_room};
ghost use Rattle.node_boxes.specs.Boxes.{boxes_of, answer_of, used_boxes};
ghost use Rattle.c_answers.specs.Answers.{ReadsInto, WritesInto, MovesInto, BoxesInto, strict_places, infer_places, token_places};
ghost use Rattle.rooms.specs.Rooms.{enough_rows};
ghost use Rattle.strict.specs.Strict.{strict_of};
ghost use Rattle.infer_type.specs.Infer.{infer_type};
ghost use Rattle.expected.specs.Expected.{expected_of};
ghost use Rattle.token.specs.Tokens.{read_at};

use c_answers::{ANSWER_PLACES, MOVE_PLACES};
use stored_form::Edition;

// `rooms::enough_rows`: lent so many node rows and so many number rows, `doorhollow_read` answers neither 3 nor 4.
#[unsafe(no_mangle)]
pub extern "C" fn doorhollow_enough_rows(bytes: usize) -> usize
    ensures { result ≡ enough_rows bytes }
{
    rooms::enough_rows(bytes)
}

// `wkt::read`. The answer is number, place, node count, number count.
#[unsafe(no_mangle)]
pub extern "C" fn doorhollow_read(
    text: &[u8],
    nodes: &mut [u32],
    numbers: &mut [u32],
    answer: &mut [u64; ANSWER_PLACES],
)
    ensures { ReadsInto (outcome_of (reading (node_room nodes.old) (number_room numbers.old) text.now)) nodes.old numbers.old nodes.new numbers.new answer.new }
{
    let a = wkt::read(text, nodes, numbers);
    *answer = c_answers::read_places(a);
}

// `to_wkt::write`. The answer is number, place, length.
#[unsafe(no_mangle)]
pub extern "C" fn doorhollow_write(
    text: &[u8],
    nodes: &[u32],
    numbers: &[u32],
    out: &mut [u8],
    answer: &mut [u64; ANSWER_PLACES],
)
    ensures { WritesInto (output_of (store_text text.now nodes.now numbers.now)) (length out.old) out.new answer.new }
{
    let a = to_wkt::write(text, nodes, numbers, out);
    *answer = c_answers::write_places(a);
}

// `stored_reading::read`, as places. The answer is number, place, node count, number count.
fn read_stored(
    bytes: &[u8],
    edition: Edition,
    nodes: &mut [u32],
    numbers: &mut [u32],
) -> [u64; ANSWER_PLACES]
    ensures { ReadsInto (reading_of (version_of edition) (node_room nodes.old) (number_room numbers.old) bytes.now) nodes.old numbers.old nodes.new numbers.new result }
{
    let a = stored_reading::read(bytes, edition, nodes, numbers);
    c_answers::read_places(a)
}

// `stored_writing::write`, as places. The answer is number, place, length.
fn write_stored(
    text: &[u8],
    nodes: &[u32],
    numbers: &[u32],
    edition: Edition,
    out: &mut [u8],
) -> [u64; ANSWER_PLACES]
    ensures { WritesInto (stored_of (version_of edition) text.now nodes.now numbers.now) (length out.old) out.new result }
{
    let a = stored_writing::write(text, nodes, numbers, edition, out);
    c_answers::write_places(a)
}

// `stored_writing::move_between`, as places. The answer is number, place, length, node count, number count.
fn move_stored(
    bytes: &[u8],
    from: Edition,
    to: Edition,
    nodes: &mut [u32],
    numbers: &mut [u32],
    out: &mut [u8],
) -> [u64; MOVE_PLACES]
    ensures { MovesInto (moving_of (version_of from) (version_of to) (node_room nodes.old) (number_room numbers.old) (length out.old) bytes.now) nodes.old numbers.old (length out.old) nodes.new numbers.new out.new result }
{
    let a = stored_writing::move_between(bytes, from, to, nodes, numbers, out);
    c_answers::move_places(a)
}

// Each version of the stored form has an entry to read it and one to write it.
#[unsafe(no_mangle)]
pub extern "C" fn doorhollow_read_stored_1(
    bytes: &[u8],
    nodes: &mut [u32],
    numbers: &mut [u32],
    answer: &mut [u64; ANSWER_PLACES],
)
    ensures { ReadsInto (reading_of version1 (node_room nodes.old) (number_room numbers.old) bytes.now) nodes.old numbers.old nodes.new numbers.new answer.new }
{
    *answer = read_stored(bytes, Edition::First, nodes, numbers);
}

#[unsafe(no_mangle)]
pub extern "C" fn doorhollow_read_stored_2(
    bytes: &[u8],
    nodes: &mut [u32],
    numbers: &mut [u32],
    answer: &mut [u64; ANSWER_PLACES],
)
    ensures { ReadsInto (reading_of version2 (node_room nodes.old) (number_room numbers.old) bytes.now) nodes.old numbers.old nodes.new numbers.new answer.new }
{
    *answer = read_stored(bytes, Edition::Second, nodes, numbers);
}

#[unsafe(no_mangle)]
pub extern "C" fn doorhollow_write_stored_1(
    text: &[u8],
    nodes: &[u32],
    numbers: &[u32],
    out: &mut [u8],
    answer: &mut [u64; ANSWER_PLACES],
)
    ensures { WritesInto (stored_of version1 text.now nodes.now numbers.now) (length out.old) out.new answer.new }
{
    *answer = write_stored(text, nodes, numbers, Edition::First, out);
}

#[unsafe(no_mangle)]
pub extern "C" fn doorhollow_write_stored_2(
    text: &[u8],
    nodes: &[u32],
    numbers: &[u32],
    out: &mut [u8],
    answer: &mut [u64; ANSWER_PLACES],
)
    ensures { WritesInto (stored_of version2 text.now nodes.now numbers.now) (length out.old) out.new answer.new }
{
    *answer = write_stored(text, nodes, numbers, Edition::Second, out);
}

// And there is a move from each version to the other.
#[unsafe(no_mangle)]
pub extern "C" fn doorhollow_move_stored_1_to_2(
    bytes: &[u8],
    nodes: &mut [u32],
    numbers: &mut [u32],
    out: &mut [u8],
    answer: &mut [u64; MOVE_PLACES],
)
    ensures { MovesInto (moving_of version1 version2 (node_room nodes.old) (number_room numbers.old) (length out.old) bytes.now) nodes.old numbers.old (length out.old) nodes.new numbers.new out.new answer.new }
{
    *answer = move_stored(bytes, Edition::First, Edition::Second, nodes, numbers, out);
}

#[unsafe(no_mangle)]
pub extern "C" fn doorhollow_move_stored_2_to_1(
    bytes: &[u8],
    nodes: &mut [u32],
    numbers: &mut [u32],
    out: &mut [u8],
    answer: &mut [u64; MOVE_PLACES],
)
    ensures { MovesInto (moving_of version2 version1 (node_room nodes.old) (number_room numbers.old) (length out.old) bytes.now) nodes.old numbers.old (length out.old) nodes.new numbers.new out.new answer.new }
{
    *answer = move_stored(bytes, Edition::Second, Edition::First, nodes, numbers, out);
}

// `strict::strict`. The answer is number, letter, node row.
#[unsafe(no_mangle)]
pub extern "C" fn doorhollow_strict(
    text: &[u8],
    nodes: &[u32],
    numbers: &[u32],
    answer: &mut [u64; ANSWER_PLACES],
)
    ensures { answer.new ≡ strict_places (strict_of text.now nodes.now numbers.now) }
{
    let a = strict::strict(text, nodes, numbers);
    *answer = c_answers::strict_places(a);
}

// `node_boxes::boxes`. The answer is number, place.
#[unsafe(no_mangle)]
pub extern "C" fn doorhollow_boxes(
    text: &[u8],
    nodes: &[u32],
    numbers: &[u32],
    table: &mut [i64],
    answer: &mut [u64; ANSWER_PLACES],
)
    ensures { BoxesInto (answer_of (boxes_of text.now nodes.now numbers.now (box_room table.old))) (used_boxes (boxes_of text.now nodes.now numbers.now (box_room table.old))) table.old table.new answer.new }
{
    let a = node_boxes::boxes(text, nodes, numbers, table);
    *answer = c_answers::box_places(a);
}

// `infer_type::infer_type`. The answer is number, place, kind, dimension.
#[unsafe(no_mangle)]
pub extern "C" fn doorhollow_infer_type(text: &[u8], answer: &mut [u64; ANSWER_PLACES])
    ensures { answer.new ≡ infer_places (infer_type text.now) }
{
    let a = infer_type::infer_type(text);
    *answer = c_answers::infer_places(a);
}

// `expected::number_of`, of `expected::expected_of`: what was expected where a text was refused with 28 or 29.
#[unsafe(no_mangle)]
pub extern "C" fn doorhollow_expected(text: &[u8], number: u32, place: usize) -> u32
    ensures { result ≡ expected_of text.now number place }
{
    expected::number_of(expected::expected_of(text, number, place))
}

// `token::read_at`: the token from a place on. The answer is sort, place, start, length; what is returned is the place to ask from for the next one.
#[unsafe(no_mangle)]
pub extern "C" fn doorhollow_token(
    text: &[u8],
    from: usize,
    answer: &mut [u64; ANSWER_PLACES],
) -> usize
    ensures { (result ≡ (read_at text.now from).at) × (answer.new ≡ token_places (read_at text.now from).found) }
{
    let read = token::read_at(text, from);
    let found = read.found;
    *answer = c_answers::token_places(found);
    read.at
}
