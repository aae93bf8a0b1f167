// The letters `t` and `p`: a cursor is put at a place of a text, and so many tokens are taken. Fields: place, count.
use crate::found::same;
use printing::Out;
use records::lines::put_bad_record;
use records::parts::{FIRST, SECOND, THIRD, behind, field, has_text};
use shown_tokens::put_found;
use token::Found;
use tokenizer::Cursor;

// Where the fields stand in a record.
const PLACE: usize = FIRST;

const COUNT: usize = SECOND;

#[derive(Clone, Copy)]
pub(crate) enum Asking {
    // Letter `t`.
    Take,
    // Letter `p`: each token is looked at twice before it is taken.
    LookAndTake,
}

// What was taken, whether each look before saw the same, and the cursor to go on with.
// Kept (1): all three count in both cases.
#[derive(Clone, Copy)]
struct Asked {
    found: Found,
    agreed: bool,
    next: Cursor,
}

fn take(cursor: Cursor, text: &[u8]) -> Asked {
    let taken = cursor.take(text);
    let found = taken.found;
    let next = taken.next;
    Asked {
        found,
        agreed: true,
        next,
    }
}

fn look_and_take(cursor: Cursor, text: &[u8]) -> Asked {
    let look = cursor.look(text);
    let first = look.found;
    let cursor = look.next;
    let look = cursor.look(text);
    let second = look.found;
    let cursor = look.next;
    let taken = cursor.take(text);
    let found = taken.found;
    let next = taken.next;
    let agreed = same(first, found) & same(second, found);
    Asked {
        found,
        agreed,
        next,
    }
}

fn ask_one(cursor: Cursor, text: &[u8], asking: Asking) -> Asked {
    match asking {
        Asking::Take => take(cursor, text),
        Asking::LookAndTake => look_and_take(cursor, text),
    }
}

// What was taken, with ` !` behind it if a look saw something else. No right line has that: by the tokenizer's
// contracts a look sees what is taken next.
fn put_asked(out: &mut Out, asked: Asked) {
    put_found(out, asked.found);
    if !asked.agreed {
        out.put(b" !");
    }
}

// So many tokens from a cursor on, with a space between.
fn put_tokens(out: &mut Out, text: &[u8], from: Cursor, count: usize, asking: Asking) {
    let mut cursor = from;
    for i in 0..count {
        if 0 < i {
            out.put(b" ");
        }
        let asked = ask_one(cursor, text, asking);
        put_asked(out, asked);
        cursor = asked.next;
    }
}

// The line of a record of one of these letters.
pub(crate) fn answer(record: &[u8], asking: Asking, out: &mut Out) {
    if has_text(record, THIRD) {
        let cursor = Cursor::new(field(record, PLACE));
        let count = field(record, COUNT);
        put_tokens(out, behind(record, THIRD), cursor, count, asking);
        out.put(b"\n");
    } else {
        put_bad_record(out);
    }
}
