// The tokens of a text (document 01, "alist text") in the two forms of an alist, held to numbers in decimal and to line ends.
#![tactic(auto)]

ghost use Rattle.std.specs.Prelude.{◌≡◌, ◌+◌, ◌≤◌, length};
ghost use Rattle.decimal.specs.Decimal.{decimal};
ghost use Rattle.tokens.specs.Tokens.{blank, between, start, token_at, same, numeral, line_end, ending};
ghost use Rattle.tokens.specs.Steps.{expect_at, expect_after, read_after};

// The two forms of an alist (document 02, slip 1). Padded: short lists are filled up with 0, and a line feed is a blank.
// Unpadded: a short list ends with its line, and each line feed is a token.
#[derive(Clone, Copy, Debug, PartialEq, Eq)]
pub enum Form {
    Padded,
    Unpadded,
}

// The place that reading has come to.
#[derive(Clone, Copy, Debug, PartialEq, Eq)]
pub struct Cursor {
    pub at: usize,
}

// Tab, line feed, carriage return or space.
#[tactic(auto, unfolding(crate::specs::Tokens::blank))]
fn is_blank(b: u8) -> bool
    ensures { result ≡ blank b }
{
    matches!(b, b'\t' | b'\n' | b'\r' | b' ')
}

// Whether a byte stands between tokens.
#[tactic(auto, unfolding(crate::specs::Tokens::between))]
fn is_between(form: Form, b: u8) -> bool
    ensures { result ≡ between form b }
{
    match form {
        Form::Padded => is_blank(b),
        Form::Unpadded => b != b'\n' && is_blank(b),
    }
}

// The first byte of the next token, or the text's length; past the text's end, the place itself.
// Stays: a `while`, since `position` over the rest of the text, and a `for`, were slower when they were tried.
#[tactic(auto, using(crate::proofs::Runs::start_end, crate::proofs::Runs::start_here, crate::proofs::Runs::start_next))]
pub fn skip(text: &[u8], form: Form, at: usize) -> usize
    ensures { result ≡ start form text.now at }
{
    let mut i = at;
    while i < text.len() && is_between(form, text[i]) {
        i += 1;
    }
    i
}

// The end of the run of bytes that are not blank that begins at a place.
// Stays: a `while`, for the same reason.
#[tactic(auto, using(crate::proofs::Runs::token_end, crate::proofs::Runs::token_stop, crate::proofs::Runs::token_more))]
pub fn token_end(text: &[u8], at: usize) -> usize
    ensures { result ≡ at + length (token_at text.now at) }
{
    let mut i = at;
    while i < text.len() && !is_blank(text[i]) {
        i += 1;
    }
    i
}

// Whether bytes are a number in decimal: from the last byte on, each is the last digit of what is left of the number.
#[tactic(auto, using(crate::proofs::Runs::number_none, crate::proofs::Runs::number_wrong, crate::proofs::Runs::number_one, crate::proofs::Runs::number_more))]
fn is_number(word: &[u8], n: usize) -> bool
    ensures { result ≡ same word.now (decimal n) }
{
    let mut rest = n;
    for i in (0..word.len()).rev() {
        if word[i] != b'0' + (rest % 10) as u8 {
            return false;
        }
        if rest < 10 {
            return i == 0;
        }
        rest /= 10;
    }
    false
}

// Holds the next token to a number: the place behind it, or the place where it is wrong or missing.
#[tactic(auto, using(crate::proofs::Runs::expect_right, crate::proofs::Runs::expect_wrong, crate::proofs::Runs::token_in))]
pub fn expect_number(text: &[u8], form: Form, c: Cursor, n: usize) -> Result<Cursor, usize>
    requires { c.at ≤ length text.now }
    ensures { result ≡ expect_at form text.now c.at (numeral n) }
{
    let first = skip(text, form, c.at);
    let end = token_end(text, first);
    if is_number(&text[first..end], n) {
        Ok(Cursor { at: end })
    } else {
        Err(first)
    }
}

// The same behind a step, from any place: a wrong step stays, and past the text's end no token is right.
#[tactic(auto, using(crate::proofs::Reading::past_number))]
pub fn expect_after(
    text: &[u8],
    form: Form,
    step: Result<Cursor, usize>,
    n: usize,
) -> Result<Cursor, usize>
    ensures { result ≡ expect_after form text.now step (numeral n) }
{
    let c = step?;
    if text.len() < c.at {
        Err(c.at)
    } else {
        expect_number(text, form, c, n)
    }
}

// Holds the next token to a line feed.
#[tactic(auto, using(crate::proofs::Runs::feed_found, crate::proofs::Runs::feed_missing, crate::proofs::Runs::feed_past))]
fn expect_feed(text: &[u8], form: Form, c: Cursor) -> Result<Cursor, usize>
    ensures { result ≡ expect_at form text.now c.at line_end }
{
    let first = skip(text, form, c.at);
    if text.get(first) == Some(&b'\n') {
        Ok(Cursor { at: first + 1 })
    } else {
        Err(first)
    }
}

// The end of a line behind a step: in the unpadded form a line feed comes next, in the padded one nothing is asked.
#[tactic(auto, using(crate::proofs::Reading::end_padded, crate::proofs::Reading::read_one))]
pub fn end_line(text: &[u8], form: Form, step: Result<Cursor, usize>) -> Result<Cursor, usize>
    ensures { result ≡ read_after form text.now step (ending form) }
{
    match form {
        Form::Padded => step,
        Form::Unpadded => expect_feed(text, form, step?),
    }
}
