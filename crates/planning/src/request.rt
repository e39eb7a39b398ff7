ghost use Rattle.std.specs.Prelude.{◌≡◌};
ghost use Rattle.planning.specs.Request.{request_in, request_of};

use crate::number;
use tokens::Form;

// What is asked for: the order J and the lift P.
#[derive(Clone, Copy, Debug, PartialEq, Eq)]
pub struct Request {
    pub order: usize,
    pub lift: usize,
}

// The numbers of the first two tokens of a text.
#[tactic(auto, using(tokens::proofs::Runs::token_in, crate::proofs::Tokens::next_stop, crate::proofs::Tokens::next_number, crate::proofs::Tokens::request_is))]
fn read_tokens(text: &[u8]) -> Request
    ensures { result ≡ request_in text.now }
{
    let s = tokens::skip(text, Form::Padded, 0);
    let e = tokens::token_end(text, s);
    let order = number::read(&text[s..e]);
    let t = tokens::skip(text, Form::Padded, e);
    let f = tokens::token_end(text, t);
    let lift = number::read(&text[t..f]);
    Request { order, lift }
}

// The numbers of the first two tokens in the first 256 bytes.
pub fn read(input: &[u8]) -> Request
    ensures { result ≡ request_of input.now }
{
    read_tokens(&input[..input.len().min(256)])
}
