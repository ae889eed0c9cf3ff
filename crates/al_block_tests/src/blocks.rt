//! Blocks, with the token behind each, or why there is none.
use al_lex::lex;
use al_parse_block::block;
use al_tree::{ParseReason, ParseStop, TypeNames};
use std::alloc::Global;
use std::process::Abort;
use std::test::Fail;

/// The token behind what was read, or the fault.
type Answer = Result<u32, (ParseReason, u32)>;

fn block_answer(
    rt: &impl Abort,
    alloc: Global,
    text: &[u8],
    types: u32,
) -> Result<Option<Answer>, Fail> {
    assert!(rt; text.len() <= 1 << 20);
    let toks = lex(alloc, text)?;
    let mut names = TypeNames::new(alloc);
    for name in 0..types {
        names.declare(name)?;
    }
    Ok(match block(alloc, &toks, 0, &names) {
        Ok((_, next)) => Some(Ok(next)),
        Err(ParseStop::Fault(fault)) => Some(Err((fault.reason, fault.token))),
        Err(ParseStop::NoMemory) => None,
    })
}

/// In these texts the names are numbered by where they first stand. Those below the number given are types. Each stands
/// between braces.
static INSIDE: [(&[u8], u32, Answer); 62] = [
    (b"{}", 0, Ok(2)),
    (b"{}}", 0, Ok(2)),
    (b"{;}", 0, Ok(3)),
    (b"{{;}{}}", 0, Ok(7)),
    (b"{a;}", 0, Ok(4)),
    (b"{a=b,c;}", 0, Ok(8)),
    (b"{a:b:;}", 0, Ok(7)),
    (b"{a::b;}", 0, Ok(6)),
    (b"{a.b->c(d)[e]++;}", 0, Ok(15)),
    (b"{int a;}", 0, Ok(5)),
    (b"{int *a[3],**b=c,d;}", 0, Ok(17)),
    (b"{T a,b;}", 1, Ok(7)),
    (b"{T[int] a;}", 1, Ok(8)),
    (b"{chan(int)[4] c;}", 0, Ok(11)),
    (b"{tuple(int,int) a;}", 0, Ok(10)),
    (b"{(int,int) a;}", 0, Ok(9)),
    (b"{((int,int),T*)*a;}", 1, Ok(15)),
    (b"{(T,(int,int)*,chan(T)[2])*a,b=c;}", 1, Ok(27)),
    (b"{((T,int),int)a;}", 1, Ok(13)),
    (b"{(T[(int,int)],int)a;}", 1, Ok(16)),
    (b"{(T[2],int)a;}", 1, Ok(12)),
    (b"{(T[tuple(int,int)],int)a;}", 1, Ok(17)),
    (b"{(int)a;}", 0, Ok(7)),
    (b"{(T**)a=b,c;}", 1, Ok(13)),
    (b"{(T[tuple(int,int)])a;}", 1, Ok(15)),
    (b"{((int)a,b)=c;}", 0, Ok(13)),
    (b"{(((a)))++;}", 0, Ok(11)),
    (b"{(a,b)=c;}", 0, Ok(10)),
    (b"{(a=b).c;}", 0, Ok(10)),
    (b"{((chan((int,int)))a).b;}", 0, Ok(18)),
    (b"{if(a)b;}", 0, Ok(8)),
    (b"{if(a)b;else c;}", 0, Ok(11)),
    (b"{if(a)if(b)c;else d;}", 0, Ok(15)),
    (b"{if(a)if(b)c;else d;else e;}", 0, Ok(18)),
    (b"{if(a){if(b)c;}else d;}", 0, Ok(17)),
    (b"{while(a)do b;while(c);}", 0, Ok(14)),
    (b"{do if(a)b;while(c);}", 0, Ok(14)),
    (b"{for(;;);}", 0, Ok(8)),
    (b"{for(a=0;a<b;a++)c;}", 0, Ok(17)),
    (b"{switch(a){case b:c;int d;case 1:default:{}}}", 0, Ok(23)),
    (b"{switch(a){}}", 0, Ok(8)),
    (b"{alt{case a=?b:c;case d<-=e:}}", 0, Ok(18)),
    (b"{alt{}}", 0, Ok(5)),
    (b"{par{a();{}par{}}}", 0, Ok(14)),
    (b"{rescue{}rescue a{}raise;raise a;}", 0, Ok(14)),
    (b"{return;return a,b;become f(a);}", 0, Ok(15)),
    (b"{break;break 2;continue;continue 1;goto a;}", 0, Ok(15)),
    (b"{alloc a,b;unalloc c;check d;check e,\"f\";}", 0, Ok(18)),
    (b"{proc f(),g(a);task h();}", 0, Ok(17)),
    (b"{x=;}", 0, Err((ParseReason::Unexpected, 3))),
    (b"{", 0, Err((ParseReason::EndOfText, 1))),
    (b"{int;}", 0, Err((ParseReason::Unexpected, 2))),
    (b"{(int[2])a;}", 0, Err((ParseReason::Unexpected, 6))),
    (b"{(T[(int,int)])a;}", 1, Err((ParseReason::Unexpected, 10))),
    (b"{(int,int)*=a;}", 0, Err((ParseReason::Unexpected, 6))),
    (b"{if(a)int b;}", 0, Err((ParseReason::Unexpected, 5))),
    (b"{else;}", 0, Err((ParseReason::Unexpected, 1))),
    (b"{case a:}", 0, Err((ParseReason::Unexpected, 1))),
    (b"{alt{default:}}", 0, Err((ParseReason::Unexpected, 3))),
    (b"{switch(a){b;}}", 0, Err((ParseReason::Unexpected, 6))),
    (b"{par{int a;}}", 0, Err((ParseReason::Unexpected, 3))),
    (b"{check a,b;}", 0, Err((ParseReason::Unexpected, 4))),
];

#[test]
fn blocks_end_at_these_tokens(rt: HostRuntime) -> Result<(), Fail> {
    for (text, types, expected) in INSIDE {
        let found = block_answer(&rt, rt.alloc(), text, types)?;
        assert!(rt; found == Some(expected), "{text:?}: {found:?}");
    }
    Ok(())
}

/// A text that is nested: so many of an opening piece, the middle, and as many closing pieces.
struct Nested {
    open: &'static [u8],
    middle: &'static [u8],
    close: &'static [u8],
    /// How many fit, with the answer then.
    fits: (u32, Answer),
    /// The token that goes too deep with one more, and with 2,000.
    deep: u32,
}

impl Nested {
    fn text(&self, alloc: Global, levels: u32) -> Result<Vec<u8>, Fail> {
        let mut text = Vec::new(alloc);
        text.extend_from_slice(b"{")?;
        for _level in 0..levels {
            text.extend_from_slice(self.open)?;
        }
        text.extend_from_slice(self.middle)?;
        for _level in 0..levels {
            text.extend_from_slice(self.close)?;
        }
        text.extend_from_slice(b"}")?;
        Ok(text)
    }
}

static NESTED: [Nested; 5] = [
    Nested {
        open: b"{",
        middle: b"",
        close: b"}",
        fits: (199, Ok(400)),
        deep: 200,
    },
    Nested {
        open: b"if(a)",
        middle: b";",
        close: b"",
        fits: (198, Ok(795)),
        deep: 793,
    },
    Nested {
        open: b"a:",
        middle: b";",
        close: b"",
        fits: (198, Ok(399)),
        deep: 397,
    },
    Nested {
        open: b"alt{case a:",
        middle: b"",
        close: b"}",
        fits: (198, Ok(1190)),
        deep: 993,
    },
    Nested {
        open: b"while(a)",
        middle: b"{}",
        close: b"",
        fits: (198, Ok(796)),
        deep: 793,
    },
];

#[test]
fn two_hundred_levels_are_read_and_no_more(rt: HostRuntime) -> Result<(), Fail> {
    let alloc = rt.alloc();
    for nested in &NESTED {
        let (levels, expected) = nested.fits;
        let text = nested.text(alloc, levels)?;
        let found = block_answer(&rt, alloc, text.as_slice(), 0)?;
        assert!(rt; found == Some(expected), "{levels} levels: {found:?}");
        for more in [levels.saturating_add(1), 2_000] {
            let text = nested.text(alloc, more)?;
            let found = block_answer(&rt, alloc, text.as_slice(), 0)?;
            let deep = Err((ParseReason::Deep, nested.deep));
            assert!(rt; found == Some(deep), "{more} levels: {found:?}");
        }
    }
    Ok(())
}
