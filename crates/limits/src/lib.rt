// The limits that the entries set to a text: its length and its depth.
#![tactic(auto)]

ghost use Rattle.std.specs.Prelude.{◌≡◌, length};
ghost use Rattle.limits.specs.Limits.{text_limit, over_limit, depth_limit};

// The longest text that is read, in bytes.
pub const TEXT_LIMIT: usize = 4_194_304;

// How many collections may be open, one in the other.
pub const DEPTH_LIMIT: u32 = 32;

// The two limits are those of the definitions: whoever takes the constants has this contract for them.
pub fn longest() -> usize
    ensures { result ≡ text_limit }
{
    TEXT_LIMIT
}

pub fn deepest() -> u32
    ensures { result ≡ depth_limit }
{
    DEPTH_LIMIT
}

pub fn is_over(text: &[u8]) -> bool
    ensures { result ≡ over_limit (length text.now) }
{
    TEXT_LIMIT < text.len()
}
