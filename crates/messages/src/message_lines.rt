// The messages of the refusals, made by tools/refusals from crates/refusals/table.txt: the line at a
// refusal's number is its message, from 0 on.
pub(crate) const MESSAGE_LINES: [u8; 1227] = *b"No refusal\n\
    More bytes than may be read; the place is the limit\n\
    The text is not well-formed UTF-8\n\
    No room for another node\n\
    No room for another number\n\
    More than 32 collections are open\n\
    No longer given\n\
    Encountered non-ascii word\n\
    Invalid WKT format\n\
    Invalid type encountered\n\
    End of stream\n\
    Unexpected word before open paren\n\
    Missing open parenthesis for type\n\
    Missing closing parenthesis for type\n\
    Expected a number for the X coordinate\n\
    Expected a number for the Y coordinate\n\
    Expected a number for the Z coordinate\n\
    Expected a number for the M coordinate\n\
    Expected a word in GEOMETRYCOLLECTION\n\
    Unsupported WKT prefix\n\
    Invalid WKT; no whitespace between geometry type and EMPTY.\n\
    Invalid WKT; no '(' character and not EMPTY\n\
    The rows are not a well-formed store\n\
    What is written is longer than the room\n\
    The part that names the type is not ASCII\n\
    A field is cut, missing, extra or of wrong tag or length\n\
    The stored bytes are of another version\n\
    A count, a number's text or the whole is too large for the stored form\n\
    Unable to parse input number as the desired output type\n\
    Unable to parse input number as the desired output type\n\
    An X or Y is inf or nan, which has no place in a box\n\
    An X or Y has an exponent beyond 9,999 or is over 10,000,000,000\n";
