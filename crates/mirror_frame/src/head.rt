//! What the head of a reply says.
ghost use Rattle.std.specs.Prelude.{◌≡◌, ℕ, ◌≤◌, length, map, All, Option, Some, None, IfSome, IsSome};
ghost use Rattle.httparse.specs.Grammar.{ReadsResponse, ResponseHead};
ghost use Rattle.httparse.specs.Spans.{IsResponseWithin, IsResponseAt, header_bytes};
ghost use Rattle.http_frame.specs.Fields.{values};
ghost use Rattle.mirror_frame.specs.Reply.{SaysReply, length_in, prefix_in, stated_length, stated_prefix, most_body};
ghost use Rattle.mirror_frame.specs.Head.{IsParsed, IsHeadOf};

use decimal_scale::plain_decimal;
use http_frame::{Fields, MAX_FIELDS, digits};
use httparse::Status;
use httparse::spans::{EMPTY_HEADER_SPAN, HeaderSpan, ResponseSpans, parse_response};

// The greatest length of a body.
const MAX_BODY: u64 = 67_108_864;

// The greatest number of digits of a length.
const MAX_DIGITS: usize = 8;

/// What the head of a reply that went well says.
#[derive(Clone, Copy, Debug, PartialEq, Eq)]
pub(crate) struct ReplyHead {
    /// The length of the body.
    pub length: usize,
    /// The Survey-Prefix, where there is one.
    pub prefix: Option<u32>,
}

/// What the text says, if it is the head of a reply that went well.
pub(crate) fn read_head(text: &[u8]) -> Option<ReplyHead>
    ensures says { IfSome result (λ head. SaysReply text.now head.length head.prefix) }
    ensures exact { (n : ℕ) (prefix : Option ℕ) → SaysReply text.now n prefix → result ≡ Some (record { length = n; prefix = prefix }) }
    ensures most { IfSome result (λ head. head.length ≤ most_body) }
{
    let mut spans = [EMPTY_HEADER_SPAN; MAX_FIELDS];
    let parsed = parse_head(text, &mut spans)?;
    if parsed.version != 1 || parsed.code != 200 {
        return None;
    }
    let fields = Fields::new(text, &spans[..parsed.headers]);
    let length = stated_length(&fields)?;
    Some(ReplyHead {
        length,
        prefix: stated_prefix(&fields),
    })
}

/// Where the parts of the head are, if the text is exactly one head.
pub(crate) fn parse_head(text: &[u8], spans: &mut [HeaderSpan]) -> Option<ResponseSpans>
    requires { length spans.old ≡ 64 }
    ensures parsed { IfSome result (λ parsed. IsParsed text.now spans.new parsed) }
    ensures every { (head : ResponseHead) → IsHeadOf text.now head → IfSome result (λ parsed. IsResponseAt text.now spans.new parsed head) × IsSome result }
    ensures within { IfSome result (λ parsed. IsResponseWithin text.now spans.new parsed) }
    ensures room { length spans.new ≡ 64 }
{
    match parse_response(text, spans) {
        Ok(Status::Complete(parsed)) => {
            if parsed.len == text.len() {
                Some(parsed)
            } else {
                None
            }
        }
        _ => None,
    }
}

/// The length that the one Content-Length field states.
pub(crate) fn stated_length(fields: &Fields<'_>) -> Option<usize>
    ensures stated { result ≡ stated_length fields.now }
    ensures most { IfSome result (λ length. length ≤ most_body) }
{
    match fields.values(b"content-length").as_slice() {
        [value] => length_in(value),
        _ => None,
    }
}

/// The number that the one Survey-Prefix field states.
pub(crate) fn stated_prefix(fields: &Fields<'_>) -> Option<u32>
    ensures { result ≡ stated_prefix fields.now }
{
    match fields.values(b"survey-prefix").as_slice() {
        [value] => prefix_in(value),
        _ => None,
    }
}

// The length that 1 to 8 digits write, where a body may have it.
fn length_in(value: &[u8]) -> Option<usize>
    ensures stated { result ≡ length_in value.now }
    ensures most { IfSome result (λ length. length ≤ most_body) }
{
    if value.len() > MAX_DIGITS {
        return None;
    }
    match digits(value) {
        Some(length) if length <= MAX_BODY => Some(length as usize),
        _ => None,
    }
}

// The number below 2^32 that the value is in plain decimals.
fn prefix_in(value: &[u8]) -> Option<u32>
    ensures { result ≡ prefix_in value.now }
{
    match plain_decimal(value) {
        Some(number) => u32::try_from(number).ok(),
        None => None,
    }
}
