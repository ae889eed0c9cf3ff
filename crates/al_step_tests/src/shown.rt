//! Worlds as text.
ghost use Rattle.al_typed.specs.Layout.{IsLaidOut};

use crate::walks::{Along, REGION, kept, walk};
use al_event::Bytes;
use al_front::front;
use al_step::text;
use al_typed::Program;
use std::alloc::Global;
use std::process::Abort;
use std::test::Fail;

/// A text, what it is walked along, and the text of the world then.
#[derive(Clone, Copy)]
struct Shown {
    text: &'static str,
    along: Along,
    shown: &'static str,
}

const EXCHANGE: &str = "void s(chan(int) c){c<-=42;} \
    void main(){chan(int) c;alloc c;proc s(c);print(\"%d\\n\",<-c);}";

/// Each item in a line of its own.
const LINES: &str = "int g;\n\
    void f(int *p, sint n) {\n\
    *p = n;\n\
    }\n\
    void main() {\n\
    int x;\n\
    tuple(byte, lint) t;\n\
    t = (300, -2);\n\
    par {\n\
    f(&x, -1);\n\
    g = x;\n\
    }\n\
    }\n";

const ALTS: &str = "void r(chan(int) c,chan(lint) d){alt{case <-c:case <-c:case <-d:}} \
    void main(){chan(int) c;chan(lint)[3] d,e;alloc c,d,e;e<-=1;e<-=2;proc r(c,d);unalloc e;}";

const ALL: [Shown; 13] = [
    Shown {
        text: EXCHANGE,
        along: Along::Entries(&[(0, 0), (0, 0), (0, 0)]),
        shown: "entries 3\nrunning\n\
            task 0 0 blocked\nframe 0 f1 main line 1\nvar c 0x00000001\n\
            task 1 0 ready\nframe 0 f0 s line 1\nvar c 0x00000001\n\
            chan 1 capacity 0 held 0 waiting 1\noutput 0\n",
    },
    Shown {
        text: EXCHANGE,
        along: Along::Entries(&[(0, 0), (0, 0), (0, 0), (1, 0), (1, 0), (0, 0), (0, 0)]),
        shown: "entries 7\nover Done\nchan 1 capacity 0 held 0 waiting 0\noutput 3\n",
    },
    Shown {
        text: "void main(){rescue{print(\"b\");return;} rescue{print(\"c\");raise;} raise;}",
        along: Along::Entries(&[(0, 0)]),
        shown: "entries 1\nrunning\ntask 0 0 ready\nframe 0 f0 main line 1\noutput 1\n",
    },
    Shown {
        text: LINES,
        along: Along::Entries(&[(0, 0)]),
        shown: "entries 1\nrunning\n\
            task 0 0 ready\nframe 0 f1 main line 5\nvar t (0,0)\n\
            block 0x10000000 4 global\nblock 0x10000008 4 frame\noutput 0\n",
    },
    Shown {
        text: LINES,
        along: Along::Entries(&[(0, 0), (0, 0)]),
        shown: "entries 2\nrunning\n\
            task 0 0 joining\nframe 0 f1 main line 9\nvar t (44,-2)\n\
            task 1 0 ready\nframe 0 f2 par line 10\n\
            task 2 0 ready\nframe 0 f3 par line 11\n\
            block 0x10000000 4 global\nblock 0x10000008 4 frame\noutput 0\n",
    },
    Shown {
        text: LINES,
        along: Along::Entries(&[(0, 0), (0, 0), (1, 0)]),
        shown: "entries 3\nrunning\n\
            task 0 0 joining\nframe 0 f1 main line 9\nvar t (44,-2)\n\
            task 1 0 ready\nframe 0 f0 f line 3\nvar p 0x10000008\nvar n -1\nframe 1 f2 par line 10\n\
            task 2 0 ready\nframe 0 f3 par line 11\n\
            block 0x10000000 4 global\nblock 0x10000008 4 frame\noutput 0\n",
    },
    // a task with two branches on a channel waits for it once
    Shown {
        text: ALTS,
        along: Along::Entries(&[(0, 0), (0, 0), (0, 0), (0, 0), (0, 0), (0, 0), (1, 0)]),
        shown: "entries 7\nrunning\n\
            task 0 0 ready\nframe 0 f1 main line 1\nvar c 0x00000001\nvar d 0x00000002\nvar e 0x00000003\n\
            task 1 0 blocked\nframe 0 f0 r line 1\nvar c 0x00000001\nvar d 0x00000002\n\
            chan 1 capacity 0 held 0 waiting 1\nchan 2 capacity 3 held 0 waiting 1\nchan 3 capacity 3 held 2 waiting 0\n\
            output 0\n",
    },
    Shown {
        text: ALTS,
        along: Along::Turns(16),
        shown: "entries 9\nover Blocked\n\
            task 1 0 blocked\nframe 0 f0 r line 1\nvar c 0x00000001\nvar d 0x00000002\n\
            chan 1 capacity 0 held 0 waiting 1\nchan 2 capacity 3 held 0 waiting 1\noutput 0\n",
    },
    Shown {
        text: "void main(){int x;x=0;print(\"a\");print(\"%d\",1/x);}",
        along: Along::Entries(&[(0, 0), (0, 0)]),
        shown: "entries 2\nover Trapped\ntask 0 0 ready\nframe 0 f0 main line 1\nvar x 0\noutput 1\n",
    },
    // those tasks alone that live
    Shown {
        text: "void t(){print(\"1\");} void u(){print(\"3\");} void main(){task t();task u();}",
        along: Along::Entries(&[(0, 0), (0, 0), (0, 0)]),
        shown: "entries 3\nrunning\ntask 0 1 ready\nframe 0 f0 t line 1\ntask 0 2 ready\nframe 0 f1 u line 1\noutput 0\n",
    },
    // a parameter without a name
    Shown {
        text: "void f(int,uint b){print(\"x\");} void main(){f(1,-2);}",
        along: Along::Entries(&[(0, 0)]),
        shown: "entries 1\nrunning\ntask 0 0 ready\nframe 0 f0 f line 1\nvar  1\nvar b 4294967294\nframe 1 f1 main line 1\noutput 1\n",
    },
    Shown {
        text: "aggr A{int v[2];byte b;}; union U{sint s;byte b[3];}; \
            void main(){A x;U y;tuple(A,U) t;x.v[1]=-5;x.b=200;y.s=-2;t=(x,y);print(\"\");}",
        along: Along::Turns(10),
        shown: "entries 10\nrunning\ntask 0 0 ready\nframe 0 f0 main line 1\nvar t (((0,-5),200),(65534,0))\n\
            block 0x10000000 16 frame\noutput 0\n",
    },
    Shown {
        text: "void main(){}",
        along: Along::Entries(&[]),
        shown: "entries 0\nrunning\ntask 0 0 ready\nframe 0 f0 main line 1\noutput 0\n",
    },
];

/// The text of the world of a program then.
fn shown_of(alloc: Global, program: &Program, along: Along) -> Result<Bytes, Fail>
    requires { IsLaidOut program.now.aggregates }
{
    let walked = walk(alloc, program, REGION, along)?;
    let shown = text(alloc, &walked.source)?;
    Ok(kept(shown, walked))
}

/// Walks a text, and compares the text of the world then.
fn compare_shown(rt: &impl Abort, alloc: Global, it: &Shown) -> Result<(), Fail> {
    let program = match front(alloc, it.text.as_bytes()) {
        Ok(program) => program,
        Err(stop) => panic!(rt; "{stop:?}: {}", it.text),
    };
    let shown = kept(shown_of(alloc, &program, it.along), program)?;
    assert_eq!(rt; shown.as_slice(), it.shown.as_bytes(), "{}", it.text);
    Ok(())
}

#[test]
fn worlds_are_shown(rt: HostRuntime) -> Result<(), Fail> {
    for it in &ALL {
        compare_shown(&rt, rt.alloc(), it)?;
    }
    Ok(())
}
