//! Lines of the log.
ghost use Rattle.std.specs.Prelude.{◌≡◌, ◌+◌, ◌≤◌, ◌++◌, length, take};
ghost use Rattle.al_link_faults.specs.Lines as spec;

use crate::fault::{FrontFault, LinkFault, LinkReason};
use al_base::{put, put_number};
use al_lex::LexReason;
use al_tree::ParseReason;

fn lex_name(reason: LexReason) -> &'static [u8]
    ensures name { result.now ≡ spec.lex_name reason }
    ensures short { length result.now ≤ 12 }
{
    match reason {
        LexReason::BadChar => b"BadChar",
        LexReason::OpenComment => b"OpenComment",
        LexReason::OpenString => b"OpenString",
        LexReason::BadEscape => b"BadEscape",
        LexReason::NumberTooBig => b"NumberTooBig",
    }
}

fn parse_name(reason: ParseReason) -> &'static [u8]
    ensures name { result.now ≡ spec.parse_name reason }
    ensures short { length result.now ≤ 10 }
{
    match reason {
        ParseReason::Unexpected => b"Unexpected",
        ParseReason::EndOfText => b"EndOfText",
        ParseReason::Deep => b"Deep",
    }
}

/// Writes the name of a fault that a file has alone, from the byte `at` on, and gives the byte behind it.
fn put_front(buf: &mut [u8], at: usize, fault: FrontFault) -> usize
    requires { at + 15 ≤ length buf.old }
    ensures text { take result buf.new ≡ take at buf.old ++ spec.front_name fault }
    ensures short { result ≤ at + 15 }
{
    match fault {
        FrontFault::Long => put(buf, at, b"Long"),
        FrontFault::Lex(fault) => put(buf, at, lex_name(fault.reason)),
        FrontFault::Parse(fault) => put(buf, at, parse_name(fault.reason)),
        FrontFault::Typing(fault) => {
            let end = put(buf, at, b"rule ");
            put_number(buf, end, u32::from(fault.rule))
        }
    }
}

/// Writes the name of a reason from the byte `at` on, and gives the byte behind it.
fn put_name(buf: &mut [u8], at: usize, reason: LinkReason) -> usize
    requires { at + 15 ≤ length buf.old }
    ensures text { take result buf.new ≡ take at buf.old ++ spec.name reason }
    ensures short { result ≤ at + 15 }
{
    match reason {
        LinkReason::Front(fault) => put_front(buf, at, fault),
        LinkReason::Reserved => put(buf, at, b"Reserved"),
        LinkReason::Differs => put(buf, at, b"Differs"),
        LinkReason::Twice => put(buf, at, b"Twice"),
    }
}

/// Writes where something is wrong in a file, and gives the byte behind it.
fn put_place(buf: &mut [u8], fault: LinkFault) -> usize
    requires { 80 ≤ length buf.old }
    ensures text { take result buf.new ≡ spec.at_place fault }
    ensures within { result ≤ 54 }
{
    let mut end = put(buf, 0, b"alef: file ");
    end = put_number(buf, end, fault.file);
    end = put(buf, end, b" line ");
    end = put_number(buf, end, fault.place.line);
    end = put(buf, end, b" col ");
    end = put_number(buf, end, fault.place.col);
    put(buf, end, b": ")
}

/// Writes the line that the log gets for files that are no one text to the front of a buffer, and gives its length.
pub fn fault_line(buf: &mut [u8; 80], fault: LinkFault) -> usize
    ensures text { take result buf.new ≡ spec.fault_line fault }
    ensures within { result ≤ 80 }
{
    let mut end = put_place(buf, fault);
    end = put_name(buf, end, fault.reason);
    put(buf, end, b"\n")
}

/// Writes the line that the log gets for a list of which that line is wrong to the front of a buffer, and gives its length.
pub fn list_line(buf: &mut [u8; 80], k: u32) -> usize
    ensures text { take result buf.new ≡ spec.list_line k }
    ensures within { result ≤ 80 }
{
    let mut end = put(buf, 0, b"alef: list line ");
    end = put_number(buf, end, k);
    put(buf, end, b"\n")
}
