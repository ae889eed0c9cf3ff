//! Texts with their whole trees, which were written down by another reader of the grammar.
use al_lex::lex;
use al_parse_stmt::parse;
use std::alloc::Global;
use std::process::Abort;
use std::test::Fail;

/// A stack of any type, with its functions, and two instances of it.
const STACK: &[u8] = b"\
    adt Stack[T]{T v[4];int n;void push(*Stack,T);T pop(*Stack);}; \
    void Stack[T].push(Stack *s,T x){s->v[s->n]=x;s->n=s->n+1;} \
    T Stack[T].pop(Stack *s){s->n=s->n-1;return s->v[s->n];} \
    void main(){Stack[int] a;Stack[byte*] b;a.push(7);\
    b.push(\"hi\");print(\"%d %s\\n\",a.pop(),b.pop());}";

static STACK_NAMES: [&str; 12] = [
    "Stack", "T", "v", "n", "push", "pop", "s", "x", "main", "a", "b", "print",
];

static STACK_ITEMS: [&str; 4] = [
    "Adt{@{1:1},name:Name{@{1:5},name:0},parameters:{[Name{@{1:11},name:1}]},\
     members:{[AdtMember{@{1:14},scope:None,part:Data(Fields{@{1:14},base:Named{@{1:14},name:1,\
     arguments:{[]}},fields:{[Dcl{@{1:16},stars:0,name:Name{@{1:16},name:2},\
     bounds:{[Number{@{1:18},value:4}]}}]}})},AdtMember{@{1:21},scope:None,\
     part:Data(Fields{@{1:21},base:Basic{@{1:21},basic:Int},fields:{[Dcl{@{1:25},stars:0,\
     name:Name{@{1:25},name:3},bounds:{[]}}]}})},AdtMember{@{1:27},scope:None,\
     part:Function{base:Basic{@{1:27},basic:Void},stars:0,name:Name{@{1:32},name:4},\
     parameters:{[OwnPointer{@{1:37},name:0},Plain{@{1:44},base:Named{@{1:44},name:1,\
     arguments:{[]}},stars:0,name:None,bounds:{[]}}]}}},AdtMember{@{1:47},scope:None,\
     part:Function{base:Named{@{1:47},name:1,arguments:{[]}},stars:0,name:Name{@{1:49},name:5},\
     parameters:{[OwnPointer{@{1:53},name:0}]}}}]}}",
    "Function{@{1:64},scope:None,base:Basic{@{1:64},basic:Void},head:Head{@{1:69},stars:0,\
     owner:Some(Owner{adt:Name{@{1:69},name:0},parameters:{[Name{@{1:75},name:1}]}}),\
     name:Name{@{1:78},name:4},parameters:{[Plain{@{1:83},base:Named{@{1:83},name:0,\
     arguments:{[]}},stars:1,name:Some(Name{@{1:90},name:6}),bounds:{[]}},Plain{@{1:92},\
     base:Named{@{1:92},name:1,arguments:{[]}},stars:0,name:Some(Name{@{1:94},name:7}),\
     bounds:{[]}}]}},body:Block{@{1:96},body:{[Value{@{1:97},value:Assign{@{1:97},op:Assign,\
     left:{Index{@{1:97},of:{Member{@{1:97},of:{Name{@{1:97},name:6}},access:Arrow,\
     name:Name{@{1:100},name:2}}},index:{Member{@{1:102},of:{Name{@{1:102},name:6}},access:Arrow,\
     name:Name{@{1:105},name:3}}}}},right:{Name{@{1:108},name:7}}}},Value{@{1:110},\
     value:Assign{@{1:110},op:Assign,left:{Member{@{1:110},of:{Name{@{1:110},name:6}},\
     access:Arrow,name:Name{@{1:113},name:3}}},right:{Binary{@{1:115},op:Add,\
     left:{Member{@{1:115},of:{Name{@{1:115},name:6}},access:Arrow,name:Name{@{1:118},name:3}}},\
     right:{Number{@{1:120},value:1}}}}}}]}}}",
    "Function{@{1:124},scope:None,base:Named{@{1:124},name:1,arguments:{[]}},head:Head{@{1:126},\
     stars:0,owner:Some(Owner{adt:Name{@{1:126},name:0},parameters:{[Name{@{1:132},name:1}]}}),\
     name:Name{@{1:135},name:5},parameters:{[Plain{@{1:139},base:Named{@{1:139},name:0,\
     arguments:{[]}},stars:1,name:Some(Name{@{1:146},name:6}),bounds:{[]}}]}},\
     body:Block{@{1:148},body:{[Value{@{1:149},value:Assign{@{1:149},op:Assign,\
     left:{Member{@{1:149},of:{Name{@{1:149},name:6}},access:Arrow,name:Name{@{1:152},name:3}}},\
     right:{Binary{@{1:154},op:Subtract,left:{Member{@{1:154},of:{Name{@{1:154},name:6}},\
     access:Arrow,name:Name{@{1:157},name:3}}},right:{Number{@{1:159},value:1}}}}}},\
     Return{@{1:161},value:Some(Index{@{1:168},of:{Member{@{1:168},of:{Name{@{1:168},name:6}},\
     access:Arrow,name:Name{@{1:171},name:2}}},index:{Member{@{1:173},of:{Name{@{1:173},name:6}},\
     access:Arrow,name:Name{@{1:176},name:3}}}})}]}}}",
    "Function{@{1:181},scope:None,base:Basic{@{1:181},basic:Void},head:Head{@{1:186},stars:0,\
     owner:None,name:Name{@{1:186},name:8},parameters:{[]}},body:Block{@{1:192},\
     body:{[Declare{@{1:193},base:Named{@{1:193},name:0,arguments:{[Basic{@{1:199},basic:Int}]}},\
     variables:{[Variable{dcl:Dcl{@{1:204},stars:0,name:Name{@{1:204},name:9},bounds:{[]}},\
     value:None}]}},Declare{@{1:206},base:Named{@{1:206},name:0,arguments:{[Pointer{@{1:212},\
     to:{Basic{@{1:212},basic:Byte}}}]}},variables:{[Variable{dcl:Dcl{@{1:219},stars:0,\
     name:Name{@{1:219},name:10},bounds:{[]}},value:None}]}},Value{@{1:221},value:Call{@{1:221},\
     callee:{Member{@{1:221},of:{Name{@{1:221},name:9}},access:Dot,name:Name{@{1:223},name:4}}},\
     arguments:{[Number{@{1:228},value:7}]}}},Value{@{1:231},value:Call{@{1:231},\
     callee:{Member{@{1:231},of:{Name{@{1:231},name:10}},access:Dot,name:Name{@{1:233},name:4}}},\
     arguments:{[Text{@{1:238},bytes:{[104,105]}}]}}},Value{@{1:244},value:Call{@{1:244},\
     callee:{Name{@{1:244},name:11}},arguments:{[Text{@{1:250},bytes:{[37,100,32,37,115,10]}},\
     Call{@{1:260},callee:{Member{@{1:260},of:{Name{@{1:260},name:9}},access:Dot,\
     name:Name{@{1:262},name:5}}},arguments:{[]}},Call{@{1:268},callee:{Member{@{1:268},\
     of:{Name{@{1:268},name:10}},access:Dot,name:Name{@{1:270},name:5}}},arguments:{[]}}]}}}]}}}",
];

/// A server and its clients, behind a line that is skipped.
const SERVER: &[u8] = b"\
    #include <alef.h>\n\
    adt Req { extern int a, b; extern chan(int) reply; int sum(*Req); };\n\
    int Req.sum(Req *r) { return r->a + r->b; }\n\
    void server(chan(Req) in, chan(int) quit) {\n\
    \tReq r; int q;\n\
    \tfor(;;) {\n\
    \t\talt {\n\
    \t\tcase r = <-in:\n\
    \t\t\tr.reply <-= r.sum();\n\
    \t\t\tbreak;\n\
    \t\tcase q = <-quit:\n\
    \t\t\treturn;\n\
    \t\t}\n\
    \t}\n\
    }\n\
    void client(chan(Req) out, chan(int) done, int k) {\n\
    \tReq r;\n\
    \talloc r.reply;\n\
    \tr.a = k;\n\
    \tr.b = 10 * k;\n\
    \tout <-= r;\n\
    \tdone <-= <-r.reply;\n\
    }\n\
    void main() {\n\
    \tchan(Req) req; chan(int) done, quit; int i, s;\n\
    \talloc req, done, quit;\n\
    \tproc server(req, quit);\n\
    \tfor(i = 1; i < 5; i++)\n\
    \t\tproc client(req, done, i);\n\
    \ts = 0;\n\
    \tfor(i = 0; i < 4; i++)\n\
    \t\ts += <-done;\n\
    \tquit <-= 0;\n\
    \tprint(\"sum %d\\n\", s);\n\
    }";

static SERVER_NAMES: [&str; 19] = [
    "Req", "a", "b", "reply", "sum", "r", "server", "in", "quit", "q", "client", "out", "done",
    "k", "main", "req", "i", "s", "print",
];

static SERVER_ITEMS: [&str; 5] = [
    "Adt{@{2:1},name:Name{@{2:5},name:0},parameters:{[]},members:{[AdtMember{@{2:11},\
     scope:Some(Extern),part:Data(Fields{@{2:18},base:Basic{@{2:18},basic:Int},\
     fields:{[Dcl{@{2:22},stars:0,name:Name{@{2:22},name:1},bounds:{[]}},Dcl{@{2:25},stars:0,\
     name:Name{@{2:25},name:2},bounds:{[]}}]}})},AdtMember{@{2:28},scope:Some(Extern),\
     part:Data(Fields{@{2:35},base:Chan{@{2:35},element:{Basic{@{2:40},basic:Int}},\
     capacity:None},fields:{[Dcl{@{2:45},stars:0,name:Name{@{2:45},name:3},bounds:{[]}}]}})},\
     AdtMember{@{2:52},scope:None,part:Function{base:Basic{@{2:52},basic:Int},stars:0,\
     name:Name{@{2:56},name:4},parameters:{[OwnPointer{@{2:60},name:0}]}}}]}}",
    "Function{@{3:1},scope:None,base:Basic{@{3:1},basic:Int},head:Head{@{3:5},stars:0,\
     owner:Some(Owner{adt:Name{@{3:5},name:0},parameters:{[]}}),name:Name{@{3:9},name:4},\
     parameters:{[Plain{@{3:13},base:Named{@{3:13},name:0,arguments:{[]}},stars:1,\
     name:Some(Name{@{3:18},name:5}),bounds:{[]}}]}},body:Block{@{3:21},body:{[Return{@{3:23},\
     value:Some(Binary{@{3:30},op:Add,left:{Member{@{3:30},of:{Name{@{3:30},name:5}},\
     access:Arrow,name:Name{@{3:33},name:1}}},right:{Member{@{3:37},of:{Name{@{3:37},name:5}},\
     access:Arrow,name:Name{@{3:40},name:2}}}})}]}}}",
    "Function{@{4:1},scope:None,base:Basic{@{4:1},basic:Void},head:Head{@{4:6},stars:0,\
     owner:None,name:Name{@{4:6},name:6},parameters:{[Plain{@{4:13},base:Chan{@{4:13},\
     element:{Named{@{4:18},name:0,arguments:{[]}}},capacity:None},stars:0,\
     name:Some(Name{@{4:23},name:7}),bounds:{[]}},Plain{@{4:27},base:Chan{@{4:27},\
     element:{Basic{@{4:32},basic:Int}},capacity:None},stars:0,name:Some(Name{@{4:37},name:8}),\
     bounds:{[]}}]}},body:Block{@{4:43},body:{[Declare{@{5:2},base:Named{@{5:2},name:0,\
     arguments:{[]}},variables:{[Variable{dcl:Dcl{@{5:6},stars:0,name:Name{@{5:6},name:5},\
     bounds:{[]}},value:None}]}},Declare{@{5:9},base:Basic{@{5:9},basic:Int},\
     variables:{[Variable{dcl:Dcl{@{5:13},stars:0,name:Name{@{5:13},name:9},bounds:{[]}},\
     value:None}]}},For{@{6:2},start:None,condition:None,step:None,body:{Block{@{6:10},\
     body:{[Alt{@{7:3},body:{[Case{@{8:3},value:Assign{@{8:8},op:Assign,left:{Name{@{8:8},\
     name:5}},right:{Unary{@{8:12},op:Receive,operand:{Name{@{8:14},name:7}}}}}},Value{@{9:4},\
     value:Assign{@{9:4},op:Send,left:{Member{@{9:4},of:{Name{@{9:4},name:5}},access:Dot,\
     name:Name{@{9:6},name:3}}},right:{Call{@{9:16},callee:{Member{@{9:16},of:{Name{@{9:16},\
     name:5}},access:Dot,name:Name{@{9:18},name:4}}},arguments:{[]}}}}},Break{@{10:4},\
     count:None},Case{@{11:3},value:Assign{@{11:8},op:Assign,left:{Name{@{11:8},name:9}},\
     right:{Unary{@{11:12},op:Receive,operand:{Name{@{11:14},name:8}}}}}},Return{@{12:4},\
     value:None}]}}]}}}}]}}}",
    "Function{@{16:1},scope:None,base:Basic{@{16:1},basic:Void},head:Head{@{16:6},stars:0,\
     owner:None,name:Name{@{16:6},name:10},parameters:{[Plain{@{16:13},base:Chan{@{16:13},\
     element:{Named{@{16:18},name:0,arguments:{[]}}},capacity:None},stars:0,\
     name:Some(Name{@{16:23},name:11}),bounds:{[]}},Plain{@{16:28},base:Chan{@{16:28},\
     element:{Basic{@{16:33},basic:Int}},capacity:None},stars:0,name:Some(Name{@{16:38},\
     name:12}),bounds:{[]}},Plain{@{16:44},base:Basic{@{16:44},basic:Int},stars:0,\
     name:Some(Name{@{16:48},name:13}),bounds:{[]}}]}},body:Block{@{16:51},\
     body:{[Declare{@{17:2},base:Named{@{17:2},name:0,arguments:{[]}},\
     variables:{[Variable{dcl:Dcl{@{17:6},stars:0,name:Name{@{17:6},name:5},bounds:{[]}},\
     value:None}]}},Alloc{@{18:2},places:{[Member{@{18:8},of:{Name{@{18:8},name:5}},access:Dot,\
     name:Name{@{18:10},name:3}}]}},Value{@{19:2},value:Assign{@{19:2},op:Assign,\
     left:{Member{@{19:2},of:{Name{@{19:2},name:5}},access:Dot,name:Name{@{19:4},name:1}}},\
     right:{Name{@{19:8},name:13}}}},Value{@{20:2},value:Assign{@{20:2},op:Assign,\
     left:{Member{@{20:2},of:{Name{@{20:2},name:5}},access:Dot,name:Name{@{20:4},name:2}}},\
     right:{Binary{@{20:8},op:Multiply,left:{Number{@{20:8},value:10}},right:{Name{@{20:13},\
     name:13}}}}}},Value{@{21:2},value:Assign{@{21:2},op:Send,left:{Name{@{21:2},name:11}},\
     right:{Name{@{21:10},name:5}}}},Value{@{22:2},value:Assign{@{22:2},op:Send,\
     left:{Name{@{22:2},name:12}},right:{Unary{@{22:11},op:Receive,operand:{Member{@{22:13},\
     of:{Name{@{22:13},name:5}},access:Dot,name:Name{@{22:15},name:3}}}}}}}]}}}",
    "Function{@{24:1},scope:None,base:Basic{@{24:1},basic:Void},head:Head{@{24:6},stars:0,\
     owner:None,name:Name{@{24:6},name:14},parameters:{[]}},body:Block{@{24:13},\
     body:{[Declare{@{25:2},base:Chan{@{25:2},element:{Named{@{25:7},name:0,arguments:{[]}}},\
     capacity:None},variables:{[Variable{dcl:Dcl{@{25:12},stars:0,name:Name{@{25:12},name:15},\
     bounds:{[]}},value:None}]}},Declare{@{25:17},base:Chan{@{25:17},element:{Basic{@{25:22},\
     basic:Int}},capacity:None},variables:{[Variable{dcl:Dcl{@{25:27},stars:0,name:Name{@{25:27},\
     name:12},bounds:{[]}},value:None},Variable{dcl:Dcl{@{25:33},stars:0,name:Name{@{25:33},\
     name:8},bounds:{[]}},value:None}]}},Declare{@{25:39},base:Basic{@{25:39},basic:Int},\
     variables:{[Variable{dcl:Dcl{@{25:43},stars:0,name:Name{@{25:43},name:16},bounds:{[]}},\
     value:None},Variable{dcl:Dcl{@{25:46},stars:0,name:Name{@{25:46},name:17},bounds:{[]}},\
     value:None}]}},Alloc{@{26:2},places:{[Name{@{26:8},name:15},Name{@{26:13},name:12},\
     Name{@{26:19},name:8}]}},Proc{@{27:2},calls:{[Call{@{27:7},callee:{Name{@{27:7},name:6}},\
     arguments:{[Name{@{27:14},name:15},Name{@{27:19},name:8}]}}]}},For{@{28:2},\
     start:Some(Assign{@{28:6},op:Assign,left:{Name{@{28:6},name:16}},right:{Number{@{28:10},\
     value:1}}}),condition:Some(Binary{@{28:13},op:Less,left:{Name{@{28:13},name:16}},\
     right:{Number{@{28:17},value:5}}}),step:Some(Postfix{@{28:20},op:Increment,\
     operand:{Name{@{28:20},name:16}}}),body:{Proc{@{29:3},calls:{[Call{@{29:8},\
     callee:{Name{@{29:8},name:10}},arguments:{[Name{@{29:15},name:15},Name{@{29:20},name:12},\
     Name{@{29:26},name:16}]}}]}}}},Value{@{30:2},value:Assign{@{30:2},op:Assign,\
     left:{Name{@{30:2},name:17}},right:{Number{@{30:6},value:0}}}},For{@{31:2},\
     start:Some(Assign{@{31:6},op:Assign,left:{Name{@{31:6},name:16}},right:{Number{@{31:10},\
     value:0}}}),condition:Some(Binary{@{31:13},op:Less,left:{Name{@{31:13},name:16}},\
     right:{Number{@{31:17},value:4}}}),step:Some(Postfix{@{31:20},op:Increment,\
     operand:{Name{@{31:20},name:16}}}),body:{Value{@{32:3},value:Assign{@{32:3},\
     op:Compound(Add),left:{Name{@{32:3},name:17}},right:{Unary{@{32:8},op:Receive,\
     operand:{Name{@{32:10},name:12}}}}}}}},Value{@{33:2},value:Assign{@{33:2},op:Send,\
     left:{Name{@{33:2},name:8}},right:{Number{@{33:11},value:0}}}},Value{@{34:2},\
     value:Call{@{34:2},callee:{Name{@{34:2},name:18}},arguments:{[Text{@{34:8},bytes:{[115,117,\
     109,32,37,100,10]}},Name{@{34:20},name:17}]}}}]}}}",
];

/// The text with other words in place of these.
fn replaced(alloc: Global, text: &str, old: &str, new: &str) -> Result<String, Fail> {
    let mut all = String::new(alloc);
    let mut rest = text;
    for _turn in 0..text.len() {
        let Some((before, after)) = rest.split_once(old) else {
            break;
        };
        all.push_str(before)?;
        all.push_str(new)?;
        rest = after;
    }
    all.push_str(rest)?;
    Ok(all)
}

/// What Rust shows of a tree in less words: `@{1:2}` is the place of line 1 and column 2, and a box or a list is its braces.
fn shortened(alloc: Global, shown: &str) -> Result<String, Fail> {
    let shown = replaced(alloc, shown, " ", "")?;
    let shown = replaced(alloc, shown.as_str(), "at:Place{line:", "@{")?;
    let shown = replaced(alloc, shown.as_str(), ",col:", ":")?;
    let shown = replaced(alloc, shown.as_str(), "Boxed{inner:", "{")?;
    replaced(alloc, shown.as_str(), "Items{items:", "{")
}

fn has_tree(
    rt: &impl Abort,
    alloc: Global,
    text: &[u8],
    names: &[&str],
    items: &[&str],
) -> Result<(), Fail> {
    assert!(rt; text.len() <= 1 << 20);
    let toks = lex(alloc, text)?;
    let Ok(tree) = parse(alloc, &toks) else {
        panic!(rt; "no tree");
    };
    assert!(rt; tree.names.len() == names.len());
    for (found, name) in tree.names.as_slice().iter().zip(names) {
        assert!(rt; found.as_slice() == name.as_bytes());
    }
    assert!(rt; tree.items.len() == items.len());
    for (found, item) in tree.items.as_slice().iter().zip(items) {
        let shown = format!(in alloc; "{found:?}")?;
        let shown = shortened(alloc, shown.as_str())?;
        assert!(rt; shown.as_str() == *item, "{shown}");
    }
    Ok(())
}

#[test]
fn whole_texts_have_these_trees(rt: HostRuntime) -> Result<(), Fail> {
    has_tree(&rt, rt.alloc(), STACK, &STACK_NAMES, &STACK_ITEMS)?;
    has_tree(&rt, rt.alloc(), SERVER, &SERVER_NAMES, &SERVER_ITEMS)
}
