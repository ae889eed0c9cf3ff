//! Texts that are checked, with what is to come of them.
use crate::calls::{USAGE, Want, compare, host_of, sink};
use al_base::Place;
use al_front::Refused as Reason;
use al_lex::{LexFault, LexReason};
use al_rounds::OpenGate;
use al_rules::TypeFault;
use al_tree::{ParseFault, ParseReason};
use al_typed::Limit;
use alef_run::{End, alef};
use std::test::Fail;

const MADE: Want<'static> = Want {
    words: &["check", "a"],
    end: End::Made,
    status: 0,
    entries: 0,
    out: "",
    log: "",
};

/// A stack of any type, with its functions, and two instances of it.
const STACK: &str = "adt Stack[T]{T v[4];int n;void push(*Stack,T);T pop(*Stack);}; \
    void Stack[T].push(Stack *s,T x){s->v[s->n]=x;s->n=s->n+1;} \
    T Stack[T].pop(Stack *s){s->n=s->n-1;return s->v[s->n];} \
    void main(){Stack[int] a;Stack[byte*] b;a.push(7);b.push(\"hi\");print(\"%d %s\\n\",a.pop(),b.pop());}";

/// Texts that are accepted, and some that can't be read or are not asked for.
const TEXTS: [(&str, Want<'static>); 5] = [
    ("void main(){}", MADE),
    (
        "void s(chan(int) c){c<-=42;} void main(){chan(int) c;alloc c;proc s(c);print(\"%d\\n\",<-c);}",
        MADE,
    ),
    (STACK, MADE),
    (
        "void main(){}",
        Want {
            words: &["check", "b"],
            end: End::ReadFault,
            status: 3,
            log: "alef: cannot read\n",
            ..MADE
        },
    ),
    (
        "void main(){}",
        Want {
            words: &["check"],
            end: End::Words,
            status: 2,
            log: USAGE,
            ..MADE
        },
    ),
];

/// Texts that are refused, for what, and the line of the log.
const REFUSED: [(&str, Reason, &str); 7] = [
    (
        "int x; void main(){x=y;}",
        Reason::Typing(TypeFault {
            rule: 1,
            place: Place { line: 1, col: 22 },
        }),
        "alef: line 1 col 22: rule 1\n",
    ),
    (
        "",
        Reason::Typing(TypeFault {
            rule: 4,
            place: Place { line: 1, col: 1 },
        }),
        "alef: line 1 col 1: rule 4\n",
    ),
    (
        "void main(){/*",
        Reason::Lex(LexFault {
            reason: LexReason::OpenComment,
            byte: 12,
        }),
        "alef: byte 12: OpenComment\n",
    ),
    (
        "void main(){x=;}",
        Reason::Parse(ParseFault {
            reason: ParseReason::Unexpected,
            token: 7,
            place: Place { line: 1, col: 15 },
        }),
        "alef: line 1 col 15: Unexpected\n",
    ),
    (
        "void main(){",
        Reason::Parse(ParseFault {
            reason: ParseReason::EndOfText,
            token: 5,
            place: Place { line: 1, col: 13 },
        }),
        "alef: line 1 col 13: EndOfText\n",
    ),
    (
        "adt G[T]{G[G[T]*] *p;}; G[int] g; void main(){}",
        Reason::Limit(Limit::Instances(257)),
        "alef: limit Instances 257\n",
    ),
    (
        "aggr A{byte b[1028];}; A x,y; void main(){x=y;}",
        Reason::Limit(Limit::Wide(1028)),
        "alef: limit Wide 1028\n",
    ),
];

#[test]
fn texts_are_accepted(rt: HostRuntime) -> Result<(), Fail> {
    for (text, want) in &TEXTS {
        compare(&rt, rt.alloc(), text.as_bytes(), want)?;
    }
    Ok(())
}

#[test]
fn texts_are_refused(rt: HostRuntime) -> Result<(), Fail> {
    for (text, reason, log) in &REFUSED {
        let want = Want {
            end: End::Refused(*reason),
            status: 1,
            log,
            ..MADE
        };
        compare(&rt, rt.alloc(), text.as_bytes(), &want)?;
    }
    Ok(())
}

/// Each of the three calls of a host fails.
#[test]
fn texts_that_are_not_read(rt: HostRuntime) -> Result<(), Fail> {
    let alloc = rt.alloc();
    for call in 1u64..4 {
        let mut host = host_of(alloc, b"void main(){}", &[call])?;
        let mut out = sink(alloc, 3, &[])?;
        let mut log = sink(alloc, 1 << 20, &[])?;
        let report = alef(
            &rt,
            alloc,
            &["check", "a"],
            &mut host,
            &mut out,
            &mut log,
            &OpenGate,
        );
        assert_eq!(rt; report.end, End::ReadFault);
        assert_eq!(rt; log.got(), b"alef: cannot read\n".as_slice());
    }
    Ok(())
}
