//! The sample text.

use al_sample::{function_count, sample};
use std::test::Fail;

#[test]
fn lines_are_as_written_out(rt: HostRuntime) -> Result<(), Fail> {
    let text = sample(rt.alloc(), 0)?;
    let lines: Vec<&[u8]> = text.as_slice().split(|b| *b == b'\n').collect(rt.alloc())?;
    assert_eq!(rt; lines.len(), 26);
    assert_eq!(rt;
        lines[19],
        b"int f19(int x){int i;i=0;while(i<3){x=x*5+19;i=i+1;}return x;}".as_slice()
    );
    assert_eq!(rt;
        lines[21],
        b"void w1(chan(int) c){int s;s=0;s=s+f1(1);s=s+f5(1);s=s+f9(1);s=s+f13(1);s=s+f17(1);c<-=s;}".as_slice()
    );
    Ok(())
}

#[test]
fn lengths_are_those_of_another_program(rt: HostRuntime) -> Result<(), Fail> {
    for (n, bytes) in [(0, 1742), (249, 78242), (250, 1742), (4294967295, 15362)] {
        assert_eq!(rt; sample(rt.alloc(), n)?.len(), bytes);
    }
    assert_eq!(rt; function_count(249), 1016);
    Ok(())
}
