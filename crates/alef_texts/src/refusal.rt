//! The log's line of a text that is refused.

ghost use Rattle.std.specs.Prelude.{◌≡◌, ◌≤◌, length, take};
ghost use Rattle.al_front.specs.declared.refused.Refused.TheVariants as because;
ghost use Rattle.alef_texts.specs.TextLine as spec;

use crate::line::{put, put_long, put_number};
use al_base::Place;
use al_front::Refused;
use al_lex::{LexFault, LexReason};
use al_rules::TypeFault;
use al_tree::{ParseFault, ParseReason};
use al_type_limits::TypeLimit;
use al_typed::Limit;

fn lex_name(reason: LexReason) -> &'static [u8]
    ensures name { result.now ≡ spec.lex_name reason }
    ensures short { length result.now ≤ 12 }
{
    match reason {
        LexReason::BadChar => b"BadChar",
        LexReason::OpenComment => b"OpenComment",
        LexReason::OpenString => b"OpenString",
        LexReason::BadEscape => b"BadEscape",
        LexReason::NumberTooBig => b"NumberTooBig",
    }
}

fn parse_name(reason: ParseReason) -> &'static [u8]
    ensures name { result.now ≡ spec.parse_name reason }
    ensures short { length result.now ≤ 10 }
{
    match reason {
        ParseReason::Unexpected => b"Unexpected",
        ParseReason::EndOfText => b"EndOfText",
        ParseReason::Deep => b"Deep",
    }
}

fn limit_name(limit: Limit) -> &'static [u8]
    ensures name { result.now ≡ spec.limit_name limit }
    ensures short { length result.now ≤ 14 }
{
    match limit {
        Limit::Long(_) => b"Long",
        Limit::Instances(_) => b"Instances",
        Limit::Wide(_) => b"Wide",
        Limit::Weight(_) => b"Weight",
        Limit::FunctionWeight(_) => b"FunctionWeight",
        Limit::Slots(_) => b"Slots",
    }
}

/// The number that is too great.
fn limit_number(limit: Limit) -> u64
    ensures { result ≡ spec.limit_number limit }
{
    match limit {
        Limit::Long(number)
        | Limit::Instances(number)
        | Limit::Wide(number)
        | Limit::Weight(number)
        | Limit::FunctionWeight(number)
        | Limit::Slots(number) => number,
    }
}

fn type_limit_name(limit: TypeLimit) -> &'static [u8]
    ensures name { result.now ≡ spec.type_limit_name limit }
    ensures short { length result.now ≤ 9 }
{
    match limit {
        TypeLimit::Depth(_) => b"TypeDepth",
        TypeLimit::Parts(_) => b"TypeParts",
    }
}

fn type_limit_number(limit: TypeLimit) -> u64
    ensures { result ≡ spec.type_limit_number limit }
{
    match limit {
        TypeLimit::Depth(number) | TypeLimit::Parts(number) => number,
    }
}

/// Writes where something is wrong in a text, and gives the byte behind it.
fn put_place(buf: &mut [u8], place: Place) -> usize
    requires { 80 ≤ length buf.old }
    ensures text { take result buf.new ≡ spec.at_place place }
    ensures within { result ≤ 38 }
{
    let mut end = put(buf, 0, b"alef: line ");
    end = put_number(buf, end, place.line);
    end = put(buf, end, b" col ");
    end = put_number(buf, end, place.col);
    put(buf, end, b": ")
}

fn lex_line(buf: &mut [u8], fault: LexFault) -> usize
    requires { 80 ≤ length buf.old }
    ensures text { take result buf.new ≡ spec.text_line (because.Lex fault) }
    ensures within { result ≤ 80 }
{
    let mut end = put(buf, 0, b"alef: byte ");
    end = put_number(buf, end, fault.byte);
    end = put(buf, end, b": ");
    end = put(buf, end, lex_name(fault.reason));
    put(buf, end, b"\n")
}

fn parse_line(buf: &mut [u8], fault: ParseFault) -> usize
    requires { 80 ≤ length buf.old }
    ensures text { take result buf.new ≡ spec.text_line (because.Parse fault) }
    ensures within { result ≤ 80 }
{
    let mut end = put_place(buf, fault.place);
    end = put(buf, end, parse_name(fault.reason));
    put(buf, end, b"\n")
}

fn typing_line(buf: &mut [u8], fault: TypeFault) -> usize
    requires { 80 ≤ length buf.old }
    ensures text { take result buf.new ≡ spec.text_line (because.Typing fault) }
    ensures within { result ≤ 80 }
{
    let mut end = put_place(buf, fault.place);
    end = put(buf, end, b"rule ");
    end = put_number(buf, end, u32::from(fault.rule));
    put(buf, end, b"\n")
}

fn limit_line(buf: &mut [u8], limit: Limit) -> usize
    requires { 80 ≤ length buf.old }
    ensures text { take result buf.new ≡ spec.text_line (because.Limit limit) }
    ensures within { result ≤ 80 }
{
    let mut end = put(buf, 0, b"alef: limit ");
    end = put(buf, end, limit_name(limit));
    end = put(buf, end, b" ");
    end = put_long(buf, end, limit_number(limit));
    put(buf, end, b"\n")
}

fn type_limit_line(buf: &mut [u8], limit: TypeLimit) -> usize
    requires { 80 ≤ length buf.old }
    ensures text { take result buf.new ≡ spec.text_line (because.Types limit) }
    ensures within { result ≤ 80 }
{
    let mut end = put(buf, 0, b"alef: limit ");
    end = put(buf, end, type_limit_name(limit));
    end = put(buf, end, b" ");
    end = put_long(buf, end, type_limit_number(limit));
    put(buf, end, b"\n")
}

/// Writes the line that the log gets for a text that is refused to the front of a buffer, and gives its length.
pub(crate) fn text_line(buf: &mut [u8; 80], refused: Refused) -> usize
    ensures text { take result buf.new ≡ spec.text_line refused }
    ensures within { result ≤ 80 }
{
    match refused {
        Refused::Lex(fault) => lex_line(buf, fault),
        Refused::Parse(fault) => parse_line(buf, fault),
        Refused::Types(limit) => type_limit_line(buf, limit),
        Refused::Typing(fault) => typing_line(buf, fault),
        Refused::Limit(limit) => limit_line(buf, limit),
    }
}
