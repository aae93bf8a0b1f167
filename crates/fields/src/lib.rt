// Fields in bytes: a one-byte tag, a two-byte length, the content. Lengths and counts are big-endian; a count has as many bytes as its reader
// or writer says.
#![tactic(auto)]

ghost use Rattle.std.specs.Prelude.{◌≡◌, ◌+◌, ◌*◌, ◌/◌, ◌%◌, ◌^◌, ◌≤◌, ◌<◌, length, get_or, set};
ghost use Rattle.pen.specs.Pen.{Puts};
ghost use Rattle.fields.specs.Counts.{byte, count_in, count_bytes};
ghost use Rattle.fields.specs.Fields.{field, field_at, is_sized};

use pen::Pen;

// How many bytes stand before a field's content, and how long it may be.
pub const HEAD: usize = 3;

pub const LONGEST: usize = 65_535;

// How many lengths two bytes can say.
const LENGTHS: usize = 65_536;

const BYTE: u32 = 256;

const TWO_BYTES: u32 = 65_536;

const TWO: usize = 2;

const FOUR: usize = 4;

// What the last three bytes of a count can say: a fourth one fits beside them.
const THREE_BYTES: u32 = 16_777_216;

// What the two bytes from `at` on say.
fn two_at(bytes: &[u8], at: usize) -> u32
    requires { at + 2 ≤ length bytes.now }
    ensures { (result ≡ get_or bytes.now at 0 * byte + get_or bytes.now (at + 1) 0) × (result < 65536) }
{
    bytes[at] as u32 * BYTE + bytes[at + 1] as u32
}

// The count that these bytes say, the first of them the highest. Of more than four the last four say it.
pub fn count_in(bytes: &[u8]) -> u32
    ensures { result ≡ count_in bytes.now % 2 ^ 32 }
{
    let len = bytes.len();
    // Every field has a length of two bytes, and a count has two or four: these need no loop.
    if len == TWO {
        return two_at(bytes, 0);
    }
    if len == FOUR {
        return two_at(bytes, 0) * TWO_BYTES + two_at(bytes, TWO);
    }
    let mut count = 0;
    for b in bytes {
        count = (count % THREE_BYTES) * BYTE + (*b as u32);
    }
    count
}

// Fills two bytes from `at` on with the lowest two of a count.
fn put_two(bytes: &mut [u8], at: usize, count: u32)
    requires { at + 2 ≤ length bytes.old }
    ensures { bytes.new ≡ set (set bytes.old at (count / byte % byte)) (at + 1) (count % byte) }
{
    bytes[at] = (count / BYTE % BYTE) as u8;
    bytes[at + 1] = (count % BYTE) as u8;
}

// Fills bytes with a count, the first of them the highest. Where the count has more bytes, its lowest are put.
pub fn put_count(bytes: &mut [u8], count: u32)
    ensures { bytes.new ≡ count_bytes (length bytes.old) count }
{
    let len = bytes.len();
    if len == TWO {
        put_two(bytes, 0, count);
        return;
    }
    if len == FOUR {
        put_two(bytes, 0, count / TWO_BYTES);
        put_two(bytes, TWO, count);
        return;
    }
    let mut rest = count;
    for i in (0..len).rev() {
        bytes[i] = (rest % BYTE) as u8;
        rest /= BYTE;
    }
}

// Where the content ends of the field at a place, if one with this tag lies in the bytes whole.
pub fn field_at(bytes: &[u8], at: usize, tag: u8) -> Option<usize>
    ensures { result ≡ field_at tag bytes.now at }
{
    let len = bytes.len();
    if len < HEAD {
        return None;
    }
    if len - HEAD < at {
        return None;
    }
    let start = at + HEAD;
    let length = count_in(&bytes[at + 1..start]) as usize;
    if (bytes[at] != tag) | (len - start < length) {
        return None;
    }
    Some(start + length)
}

// Whether a field of this tag and this length lies at a place, whole.
pub fn is_sized(bytes: &[u8], at: usize, tag: u8, length: usize) -> bool
    ensures { result ≡ is_sized tag length bytes.now at }
{
    match field_at(bytes, at, tag) {
        Some(end) => end - at - HEAD == length,
        None => false,
    }
}

// Puts a field, or nothing. Of a content that is too long the length says the lowest two bytes.
pub fn put_field(out: &mut [u8], p: Pen, tag: u8, content: &[u8]) -> Pen
    ensures { Puts (field tag content.now) p out.old result out.new }
{
    let len = content.len();
    match pen::end_of(out, p, HEAD + len) {
        Some(end) => {
            let start = p.at + HEAD;
            out[p.at] = tag;
            put_count(&mut out[p.at + 1..start], (len % LENGTHS) as u32);
            // A content of one byte needs no loop.
            match content {
                [b] => out[start] = *b,
                _ => {
                    let behind = Pen {
                        at: start,
                        full: false,
                    };
                    pen::put(out, behind, content);
                }
            }
            Pen {
                at: end,
                full: false,
            }
        }
        None => Pen {
            at: p.at,
            full: true,
        },
    }
}
