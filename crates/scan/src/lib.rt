// The byte classes of WKT's tokens, and scans over runs of them.
// Kept (5): a text and a place in it stay two parameters. Most callers have one text and several places in it; where one place goes with the text through
// all calls, the struct is `token_reader::Tokens`.
#![tactic(auto)]

ghost use Rattle.std.specs.Prelude.{◌≡◌, ℕ, Bool, false};
ghost use Rattle.scan.specs.Bytes.{is_blank, is_stop, is_inner, is_digit, is_sign, is_plus, is_point, is_numberlike};
ghost use Rattle.scan.specs.Runs.{Tells, first_not, after_one_at};

// Space, tab, line feed and carriage return. Most bytes stand above them all.
pub fn is_blank(b: u8) -> bool
    ensures { result ≡ is_blank b }
{
    b <= b' ' && matches!(b, b' ' | b'\t' | b'\n' | b'\r')
}

// What ends a number or a word: a blank, or one of the marks NUL, `(`, `)` and `,`. Most bytes stand above them all.
pub fn is_stop(b: u8) -> bool
    ensures { result ≡ is_stop b }
{
    b <= b',' && (matches!(b, 0 | b'(' | b')' | b',') || is_blank(b))
}

pub fn is_digit(b: u8) -> bool
    ensures { result ≡ is_digit b }
{
    b.is_ascii_digit()
}

pub fn is_sign(b: u8) -> bool
    ensures { result ≡ is_sign b }
{
    (b == b'+') | (b == b'-')
}

// What a number starts with.
pub fn is_numberlike(b: u8) -> bool
    ensures { result ≡ is_numberlike b }
{
    is_digit(b) | (b == b'.') | is_sign(b)
}

// The place of the first byte from `from` on that is no blank, or the end.
pub fn skip_blanks(text: &[u8], from: usize) -> usize
    ensures { result ≡ first_not is_blank text.now from }
{
    // Kept (3): document 01, "The form each place takes": "A loop yields by break the place of the first non-blank or the end".
    let mut i = from;
    loop {
        if text.len() <= i {
            break text.len();
        }
        if is_blank(text[i]) {
            i += 1;
        } else {
            break i;
        }
    }
}

// Where a number or a word that stands at `from` ends: before a blank or a mark, or at the end.
pub fn token_end(text: &[u8], from: usize) -> usize
    ensures { result ≡ first_not is_inner text.now from }
{
    // Kept (3): document 01, "The form each place takes": "token scan leaves by label on a marker".
    let mut i = from;
    'scan: loop {
        if text.len() <= i {
            break 'scan text.len();
        }
        if is_stop(text[i]) {
            break 'scan i;
        }
        i += 1;
    }
}

// The place of the first byte from `from` on that fails the test, or the end.
pub fn first_not<F: Fn(u8) -> bool>(text: &[u8], from: usize, test: F) -> usize
    requires { F.IsAlwaysCallable test }
    ensures { (p : ℕ → Bool) → Tells (F.post test) p → result ≡ first_not p text.now from }
{
    for i in from..text.len() {
        if !test(text[i]) {
            return i;
        }
    }
    text.len()
}

// The place past the byte at `at`, if that passes the test, or `at`.
pub fn after_one<F: Fn(u8) -> bool>(text: &[u8], at: usize, test: F) -> usize
    requires { F.IsAlwaysCallable test }
    ensures { (p : ℕ → Bool) → Tells (F.post test) p → p 0 ≡ false → result ≡ after_one_at p text.now at }
{
    if text.len() <= at {
        return at;
    }
    if test(text[at]) { at + 1 } else { at }
}

// Where the digits that stand at `from` end.
pub fn digits_end(text: &[u8], from: usize) -> usize
    ensures { result ≡ first_not is_digit text.now from }
{
    first_not(text, from, is_digit)
}

// The place past a blank at `at`, or `at`.
pub fn after_blank(text: &[u8], at: usize) -> usize
    ensures { result ≡ after_one_at is_blank text.now at }
{
    after_one(text, at, is_blank)
}

// The place past a `+` or `-` at `at`, or `at`.
pub fn after_sign(text: &[u8], at: usize) -> usize
    ensures { result ≡ after_one_at is_sign text.now at }
{
    after_one(text, at, is_sign)
}

// The place past a `+` at `at`, or `at`.
pub fn after_plus(text: &[u8], at: usize) -> usize
    ensures { result ≡ after_one_at is_plus text.now at }
{
    after_one(text, at, |b| b == b'+')
}

// The place past a point at `at`, or `at`.
pub fn after_point(text: &[u8], at: usize) -> usize
    ensures { result ≡ after_one_at is_point text.now at }
{
    after_one(text, at, |b| b == b'.')
}
