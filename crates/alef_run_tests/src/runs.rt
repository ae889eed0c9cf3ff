//! Texts that are compiled and run, and texts whose images are written and run then.

use crate::calls::{USAGE, Want, compare, host_of, is_no_image, sink};
use al_base::{Over, Place, Trap};
use al_front::Refused;
use al_host::MemSink;
use al_rounds::OpenGate;
use al_rules::TypeFault;
use alef_run::{End, alef};
use rv_image::ImageFault;
use std::alloc::Global;
use std::process::Abort;
use std::sync::Wait;
use std::test::Fail;
use std::thread::Threads;

const DONE: Want<'static> = Want {
    words: &["run", "a"],
    end: End::Ran(Over::Done),
    status: 0,
    entries: 1,
    out: "",
    log: "",
};

const NO_JOB: Want<'static> = Want {
    words: &[],
    end: End::Words,
    status: 2,
    entries: 0,
    out: "",
    log: USAGE,
};

/// Procs that ask a server for sums, each over a channel of its own.
pub(super) const SERVER: &str = "#include <alef.h>\n\
    adt Req { extern int a, b; extern chan(int) reply; int sum(*Req); };\n\
    int Req.sum(Req *r) { return r->a + r->b; }\n\
    void server(chan(Req) in, chan(int) quit) {\n\
    Req r; int q;\n\
    for(;;) { alt { case r = <-in: r.reply <-= r.sum(); break; case q = <-quit: return; } }\n\
    }\n\
    void client(chan(Req) out, chan(int) done, int k) {\n\
    Req r; alloc r.reply; r.a = k; r.b = 10 * k; out <-= r; done <-= <-r.reply;\n\
    }\n\
    void main() {\n\
    chan(Req) req; chan(int) done, quit; int i, s;\n\
    alloc req, done, quit; proc server(req, quit);\n\
    for(i = 1; i < 5; i++) proc client(req, done, i);\n\
    s = 0; for(i = 0; i < 4; i++) s += <-done;\n\
    quit <-= 0; print(\"sum %d\\n\", s);\n\
    }\n";

/// Texts that end in each way, and calls that come to no run.
const TEXTS: [(&str, Want<'static>); 13] = [
    (
        "void main(){int a; a = 40 + 2; print(\"%d\\n\", a);}\n",
        Want {
            entries: 2,
            out: "42\n",
            ..DONE
        },
    ),
    (
        "void main(){}",
        Want {
            words: &["run", "a", "--entries", "1"],
            ..DONE
        },
    ),
    (
        SERVER,
        Want {
            entries: 107,
            out: "sum 110\n",
            ..DONE
        },
    ),
    (
        "void main(){int x;x=0;print(\"a\");\nprint(\"%d\",1/x);}",
        Want {
            end: End::Ran(Over::Trapped {
                trap: Trap::Divide,
                proc: 0,
                at: 1,
            }),
            status: 5,
            entries: 2,
            out: "a",
            log: "alef: trap Divide in proc 0 at entry 1, line 2\n",
            ..DONE
        },
    ),
    (
        "void main(){chan(int) c;alloc c;c<-=1;}",
        Want {
            end: End::Ran(Over::Blocked),
            status: 6,
            entries: 2,
            log: "alef: blocked\n",
            ..DONE
        },
    ),
    (
        "void main(){while(1);}",
        Want {
            words: &["run", "a", "--entries", "3"],
            end: End::Ran(Over::Spent),
            status: 7,
            entries: 3,
            log: "alef: entries spent\n",
            ..DONE
        },
    ),
    (
        "void main(){terminate(3);}",
        Want {
            end: End::Ran(Over::Stopped(3)),
            status: 131,
            ..DONE
        },
    ),
    (
        "void main(){int a;a=b;}",
        Want {
            end: End::Refused(Refused::Typing(TypeFault {
                rule: 1,
                place: Place { line: 1, col: 21 },
            })),
            status: 1,
            entries: 0,
            log: "alef: line 1 col 21: rule 1\n",
            ..DONE
        },
    ),
    (
        "void main(){}",
        Want {
            words: &["run", "b"],
            end: End::ReadFault,
            status: 3,
            entries: 0,
            log: "alef: cannot read\n",
            ..DONE
        },
    ),
    (
        "void main(){}",
        Want {
            words: &["run"],
            ..NO_JOB
        },
    ),
    (
        "void main(){}",
        Want {
            words: &["run", "a", "--workers", "0"],
            ..NO_JOB
        },
    ),
    (
        "void main(){}",
        Want {
            words: &["walk", "a"],
            ..NO_JOB
        },
    ),
    // a mode that is yet to come
    (
        "void main(){}",
        Want {
            words: &["link", "a"],
            ..NO_JOB
        },
    ),
];

#[test]
fn texts_run_or_are_refused(rt: HostRuntime) -> Result<(), Fail> {
    for (text, want) in &TEXTS {
        compare(&rt, rt.alloc(), text.as_bytes(), want)?;
    }
    Ok(())
}

/// Runs these bytes as an image, and compares.
fn run_bytes<R: Threads + Wait + Sync + Abort>(
    rt: &R,
    alloc: Global,
    bytes: &[u8],
) -> Result<(), Fail> {
    let want = Want {
        words: &["exec", "a"],
        entries: 2,
        out: "-9\n",
        ..DONE
    };
    compare(rt, alloc, bytes, &want)
}

/// A sink that got the image of a text.
fn built<R: Threads + Wait + Sync + Abort>(rt: &R, alloc: Global) -> Result<MemSink, Fail> {
    let mut host = host_of(alloc, b"void main(){print(\"%d\\n\", 7/2*-3);}", &[])?;
    let mut out = sink(alloc, 1 << 20, &[])?;
    let mut log = sink(alloc, 1 << 20, &[])?;
    let words = ["build", "a"];
    let report = alef(rt, alloc, &words, &mut host, &mut out, &mut log, &OpenGate);
    assert_eq!(rt; report.end, End::Made);
    assert_eq!(rt; report.schedule.len(), 0);
    assert_eq!(rt; log.got().len(), 0);
    Ok(out)
}

/// Bytes without the last are no image.
fn cut<R: Threads + Wait + Sync + Abort>(rt: &R, alloc: Global, bytes: &[u8]) -> Result<(), Fail> {
    match bytes.split_last() {
        None => Ok(()),
        Some((_, front)) => {
            is_no_image(rt, alloc, front, ImageFault::Short, "alef: image Short\n")
        }
    }
}

/// Nor are bytes with one more.
fn one_more<R: Threads + Wait + Sync + Abort>(
    rt: &R,
    alloc: Global,
    bytes: &[u8],
) -> Result<(), Fail> {
    let mut longer = Vec::from_slice(alloc, bytes)?;
    longer.push(0)?;
    is_no_image(rt, alloc, &longer, ImageFault::Extra, "alef: image Extra\n")
}

/// The image of a text is written, and is run then.
#[test]
fn what_is_built_runs(rt: HostRuntime) -> Result<(), Fail> {
    let alloc = rt.alloc();
    let out = built(&rt, alloc)?;
    run_bytes(&rt, alloc, out.got())?;
    cut(&rt, alloc, out.got())?;
    one_more(&rt, alloc, out.got())
}

/// The first writes of a sink fail, each in turn.
#[test]
fn outputs_that_fail(rt: HostRuntime) -> Result<(), Fail> {
    let alloc = rt.alloc();
    for call in 1usize..7 {
        let mut host = host_of(alloc, b"void main(){print(\"abcabcabcabcabcabc\");}", &[])?;
        let mut out = sink(alloc, 3, &[call as u64])?;
        let mut log = sink(alloc, 1 << 20, &[])?;
        let words = ["run", "a"];
        let report = alef(&rt, alloc, &words, &mut host, &mut out, &mut log, &OpenGate);
        assert_eq!(rt; report.end, End::WriteFault);
        assert_eq!(rt; out.got(), &b"abcabcabcabcabcabc"[..3 * (call - 1)]);
        assert_eq!(rt; log.got(), b"alef: cannot write\n".as_slice());
    }
    Ok(())
}
