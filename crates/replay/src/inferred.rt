// The letter `i`: what infer_type answers for a text. No fields.
use infer_type::Inferred;
use printing::Out;
use records::lines::{put_bad_record, put_three};
use records::parts::{FIRST, behind, has_text};

fn put_inferred(out: &mut Out, inferred: Inferred) {
    put_three(
        out,
        inferred.number as usize,
        inferred.place,
        inferred.kind as usize,
    );
    out.put_spaced(inferred.dimension as usize);
    out.put(b"\n");
}

// The line of a record of this letter.
pub(crate) fn answer(record: &[u8], out: &mut Out) {
    if has_text(record, FIRST) {
        put_inferred(out, infer_type::infer_type(behind(record, FIRST)));
    } else {
        put_bad_record(out);
    }
}
