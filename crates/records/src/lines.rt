// The lines of answers.
ghost use Rattle.std.specs.Prelude.{◌≡◌, ◌≤◌, length};
ghost use Rattle.printing.specs.Printing.{Prints};
ghost use Rattle.records.specs.Lines.{bad_record, three_numbers, left_over, left_line, each_of, rows_line, numbers_line, hex_byte, read_line, write_line, move_numbers, move_line};

use printing::Out;
use store::{ReadAnswer, WriteAnswer};

const DIGITS: [u8; 16] = *b"0123456789abcdef";

const HALF: usize = 16;

// The whole line of a record that has no answer.
pub fn put_bad_record(out: &mut Out)
    ensures { Prints bad_record out.old out.new }
{
    out.put(b"bad record\n");
}

// Three numbers, a space between.
pub fn put_three(out: &mut Out, first: usize, second: usize, third: usize)
    ensures { Prints (three_numbers first second third) out.old out.new }
{
    out.put_number(first);
    out.put_spaced(second);
    out.put_spaced(third);
}

// How many places aren't zero, and the line's end.
pub fn put_left_over(out: &mut Out, count: usize)
    ensures { Prints (left_line count) out.old out.new }
{
    out.put(b" ;");
    out.put_spaced(count);
    out.put(b"\n");
}

// How many places from `from` on aren't zero.
// Kept (2): `bytes_left` differs in the element alone; one function for both would take a bound that knows zero, and each is one chain.
fn places_left(slice: &[u32], from: usize) -> usize
    ensures value { result ≡ left_over slice.now from }
    ensures upper_bound { result ≤ length slice.now }
{
    let rest = &slice[from.min(slice.len())..];
    rest.iter().filter(|n| **n != 0).count()
}

// How many bytes from `from` on aren't zero.
fn bytes_left(output: &[u8], from: usize) -> usize
    ensures value { result ≡ left_over output.now from }
    ensures upper_bound { result ≤ length output.now }
{
    let rest = &output[from.min(output.len())..];
    rest.iter().filter(|b| **b != 0).count()
}

fn put_numbers(out: &mut Out, answer: ReadAnswer)
    ensures { Prints (numbers_line answer) out.old out.new }
{
    put_three(out, answer.number as usize, answer.place, answer.nodes);
    out.put_spaced(answer.numbers);
}

// The used places of a slice, each after a space, or nothing after a space.
fn put_rows(out: &mut Out, slice: &[u32], used: usize)
    ensures { Prints (rows_line slice.now used) out.old out.new }
{
    out.put(b" ;");
    if used == 0 {
        out.put(b" ");
        return;
    }
    let rows = &slice[..used.min(slice.len())];
    for n in rows {
        out.put_spaced(*n as usize);
    }
}

// The line of a reader's answer that left the slices so.
pub fn put_read(out: &mut Out, answer: ReadAnswer, nodes: &[u32], numbers: &[u32])
    ensures { Prints (read_line answer nodes.now numbers.now) out.old out.new }
{
    let used = store::node_places(nodes, answer.nodes);
    let spans = store::number_places(numbers, answer.numbers);
    put_numbers(out, answer);
    put_rows(out, nodes, used);
    put_rows(out, numbers, spans);
    let left = places_left(nodes, used) + places_left(numbers, spans);
    put_left_over(out, left);
}

fn put_byte(out: &mut Out, byte: u8)
    ensures { Prints (hex_byte byte) out.old out.new }
{
    let number = usize::from(byte);
    out.put(&[DIGITS[number / HALF], DIGITS[number % HALF]]);
}

fn put_bytes(out: &mut Out, output: &[u8], used: usize)
    ensures { Prints (each_of hex_byte output.now used) out.old out.new }
{
    let bytes = &output[..used.min(output.len())];
    for b in bytes {
        put_byte(out, *b);
    }
}

// The line of a writer's answer that left the output so.
pub fn put_written(out: &mut Out, answer: WriteAnswer, output: &[u8])
    ensures { Prints (write_line answer output.now) out.old out.new }
{
    put_three(out, answer.number as usize, answer.place, answer.length);
    out.put(b" ; ");
    put_bytes(out, output, answer.length);
    put_left_over(out, bytes_left(output, answer.length));
}

// The numbers of a move's answer: of what was read, with how many bytes were written in their middle.
fn put_move_numbers(out: &mut Out, read: ReadAnswer, length: usize)
    ensures { Prints (move_numbers read length) out.old out.new }
{
    put_three(out, read.number as usize, read.place, length);
    out.put_spaced(read.nodes);
    out.put_spaced(read.numbers);
}

// The line of a move's answer that left the output and the slices so.
pub fn put_moved(
    out: &mut Out,
    read: ReadAnswer,
    length: usize,
    output: &[u8],
    nodes: &[u32],
    numbers: &[u32],
)
    ensures { Prints (move_line read length output.now nodes.now numbers.now) out.old out.new }
{
    let used = store::node_places(nodes, read.nodes);
    let spans = store::number_places(numbers, read.numbers);
    let rows_left = places_left(nodes, used) + places_left(numbers, spans);
    let left = bytes_left(output, length) + rows_left;
    put_move_numbers(out, read, length);
    out.put(b" ; ");
    put_bytes(out, output, length);
    put_rows(out, nodes, used);
    put_rows(out, numbers, spans);
    put_left_over(out, left);
}
