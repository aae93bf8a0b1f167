// The message of a number that goes wrong with what was expected there, made by tools/refusals from crates/expected/words.txt: the
// line at the number of an expectation, from 0 on.
pub(crate) const EXPECTED_LINES: [u8; 502] = *b"No expectation\n\
    Unable to parse input number as the desired output type: nothing more was expected\n\
    Unable to parse input number as the desired output type: a digit was expected\n\
    Unable to parse input number as the desired output type: a digit or a sign was expected after e\n\
    Unable to parse input number as the desired output type: a digit, a point, inf, infinity or nan was expected after the sign\n\
    Unable to parse input number as the desired output type: inf, infinity or nan was expected after the sign\n";
