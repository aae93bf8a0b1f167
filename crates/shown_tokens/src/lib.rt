// What a demand for a token found, as programs print it: `none@P`, `bad@P`, `(@P`, `number@P:S+L`, where P is the place, S the
// start of a number's text or of a word, and L its length.
#![tactic(auto)]

ghost use Rattle.printing.specs.Printing.{Prints};
ghost use Rattle.shown_tokens.specs.Shown.{placed, spanned, shown_token, shown_found};

use printing::Out;
use token::{Found, Token};

fn put_placed(out: &mut Out, name: &[u8], place: usize)
    ensures { Prints (placed name.now place) out.old out.new }
{
    out.put(name);
    out.put_number(place);
}

fn put_spanned(out: &mut Out, name: &[u8], place: usize, start: usize, len: usize)
    ensures { Prints (spanned name.now place start len) out.old out.new }
{
    put_placed(out, name, place);
    put_placed(out, b":", start);
    put_placed(out, b"+", len);
}

fn put_token(out: &mut Out, place: usize, token: Token)
    ensures { Prints (shown_token place token) out.old out.new }
{
    match token {
        Token::Comma => put_placed(out, b",@", place),
        Token::Number(start, len) => put_spanned(out, b"number@", place, start, len),
        Token::ParenClose => put_placed(out, b")@", place),
        Token::ParenOpen => put_placed(out, b"(@", place),
        Token::Word(start, len) => put_spanned(out, b"word@", place, start, len),
    }
}

// Puts what was found.
pub fn put_found(out: &mut Out, found: Found)
    ensures { Prints (shown_found found) out.old out.new }
{
    match found {
        Found::NoToken(place) => put_placed(out, b"none@", place),
        Found::BadNumber(place) => put_placed(out, b"bad@", place),
        Found::Is(place, token) => put_token(out, place, token),
    }
}
