//! Texts that use each construct, with their outputs and the numbers of their entries.

use crate::walks::{Along, REGION, Trapped, Whole, compare, trapped, whole};
use al_base::Trap;
use std::test::Fail;

/// Operators, conversions and constants of all widths.
const NUMBERS: [Whole; 19] = [
    (
        "void main(){int a;a=-7;print(\"%d %d %d %d\\n\",a/2,a%2,a>>1,a<<1);}",
        2,
        "-3 -1 -4 -14\n",
    ),
    (
        "void main(){uint u;u=4294967295;print(\"%u %d %u %d\\n\",u/2,u>>31,u*u,u>0);}",
        2,
        "2147483647 1 1 1\n",
    ),
    (
        "void main(){int i;uint u;i=-1;u=1;print(\"%d %d\\n\",i<u,i>u);}",
        2,
        "0 1\n",
    ),
    (
        "void main(){print(\"%d%d%d %x\",-1<0x80000000,-1<2147483647,2147483648>0,-1);}",
        2,
        "011 ffffffff",
    ),
    (
        "void main(){lint a;a=-9000000000;print(\"%d %d %d %x\\n\",a/7,a%7,a>>33,a);}",
        2,
        "-1285714285 -5 -2 fffffffde78ee600\n",
    ),
    (
        "void main(){lint a,b;a=-1;b=4294967296;print(\"%d%d%d%d%d%d\",a<b,a>b,a<=b,a>=b,a==b,a!=b);}",
        2,
        "101001",
    ),
    (
        "void main(){lint a;a=3037000500;print(\"%d %d\",a*a,a*-a);}",
        2,
        "-9223372036709301616 9223372036709301616",
    ),
    (
        "void main(){ulint a;a=10000000000000000000;print(\"%u %u %u %x\",a/3,a%7,a>>1,~a);}",
        2,
        "3333333333333333333 3 5000000000000000000 7538dcfb7617ffff",
    ),
    (
        "void main(){lint l;uint u;u=0;l=u-1;print(\"%d \",l);l=u-(lint)1;print(\"%d \",l);l=(int)(u-1);print(\"%d\",l);}",
        4,
        "4294967295 -1 -1",
    ),
    (
        "void main(){int a;lint b;a=1;b=1;print(\"%d %d %d\\n\",a<<33,b<<65,a<< -1);}",
        2,
        "2 2 -2147483648\n",
    ),
    (
        "void main(){int a;a=-2147483647-1;print(\"%d %d\\n\",a/-1,a%-1);}",
        2,
        "-2147483648 0\n",
    ),
    (
        "void main(){int a;a=10;a+=5;a-=3;a*=4;a/=5;a%=7;a<<=3;a>>=1;a|=9;a&=13;a^=6;print(\"%d\\n\",a);}",
        2,
        "15\n",
    ),
    (
        "void main(){int a;uint u;a=-8;u=2;a/=u;print(\"%d\\n\",a);}",
        2,
        "2147483644\n",
    ),
    (
        "void main(){byte b;int i;b=250;i=(b+=10)+1;print(\"%d %d\\n\",i,b);}",
        2,
        "5 4\n",
    ),
    (
        "void main(){print(\"%d %d %d %d\\n\",(byte)300,(sint)40000,(int)4294967297,(lint)-1);}",
        2,
        "44 -25536 1 -1\n",
    ),
    (
        "void main(){print(\"%u %x %x %u\\n\",(uint)-1,(ulint)(int)-1,(ulint)(uint)-1,(usint)-1);}",
        2,
        "4294967295 ffffffffffffffff ffffffff 65535\n",
    ),
    (
        "void main(){byte b;sint s;b=255;s=-1;print(\"%d%d\\n\",b==s,(byte)s==b);}",
        2,
        "01\n",
    ),
    (
        "void main(){byte b;b=1;print(\"%d %u\\n\",~b,-b);}",
        2,
        "-2 4294967295\n",
    ),
    (
        "void main(){chan(int) c;int *p;print(\"%d%d%d\",c&&1,p||0,!c);alloc c,p;print(\"%d%d%d\",c&&1,p||0,!c);\
            if(c)print(\"c\");while(p)p=nil;}",
        6,
        "001110c",
    ),
];

/// Places, operands and stores in their order.
const ORDER: [Whole; 12] = [
    (
        "int f(){print(\"f\");return 5;} void main(){int a;a=0&&f();a=a+(1||f());a=a+(1&&f());print(\"%d\\n\",a);}",
        3,
        "f2\n",
    ),
    (
        "void main(){int a[2],i;i=0;a[i]+=(i=1)+4;print(\"%d %d %d\",a[0],a[1],i);}",
        8,
        "5 0 1",
    ),
    (
        "void main(){int a[2];int i;(i,a[i])=(1,5);print(\"%d %d %d\",a[0],a[1],i);}",
        7,
        "5 0 1",
    ),
    (
        "void main(){int a,b;a=1;b=2;(a,b)=(b,a);print(\"%d %d\\n\",a,b);}",
        2,
        "2 1\n",
    ),
    (
        "(int,byte) f(){return (300,300);} void main(){int a;byte b;(a,b)=f();print(\"%d %d\\n\",a,b);}",
        2,
        "300 44\n",
    ),
    (
        "void main(){byte b;int i,j;(i,j)=((b,nil)=(513,7));print(\"%d %d %d\\n\",b,i,j);}",
        2,
        "1 1 7\n",
    ),
    (
        "void main(){int i;i=1;i=i++ + ++i;print(\"%d\",i);}",
        2,
        "4",
    ),
    (
        "void f(int a,int b,int c){print(\"%d%d%d\",a,b,c);} void main(){int i;f(i++,i++,i);}",
        2,
        "012",
    ),
    (
        "typedef void F(int);void g(int a){print(\"g%d\",a);} F *p(){print(\"p\");return g;} int q(){print(\"q\");\
            return 4;} void main(){p()(q());}",
        4,
        "pqg4",
    ),
    (
        "chan(int)[1] k;chan(int) g(){print(\"g\");alloc k;return k;} int h(){print(\"h\");return 1;} void main(){\
            g()<-=h();}",
        7,
        "gh",
    ),
    (
        "adt C{extern int n;int sum(int,int);}; int C.sum(int a,int b){return a+b;} C *gp; C a[2]; C mk(){C c;\
            print(\"m\");return c;} int f(){print(\"f\");return 9;} void main(){C c;gp=nil;print(\"%d\",gp->sum(1,2));\
            print(\"%d\",mk().sum(3,4));print(\"%d\",a[f()].sum(5,6));}",
        13,
        "3m7f11",
    ),
    (
        "lint l=5;void main(){l++;++l;l--;l+=4294967296;print(\"%d\",l);print(\" %d\",zerox l);print(\" %d\",l);}",
        28,
        "4294967302 4294967302 0",
    ),
];

/// Aggrs, unions, arrays, pointers and texts.
const DATA: [Whole; 18] = [
    (
        "int g=5;byte *s=\"hey\";int a[3]={1,2,3};aggr P{int x;byte y;};P p={7,8};lint l=-2;void main(){\
            print(\"%d %s %d%d%d %d%d %d\\n\",g,s,a[0],a[1],a[2],p.x,p.y,l);}",
        15,
        "5 hey 123 78 -2\n",
    ),
    (
        "aggr A{byte x;sint v[2];};A a[3]={{1,{2,3}},{4}};byte *n[2]={\"p\",\"q\"};void main(){\
            print(\"%d%d%d%d%d%d%s%s\",a[0].x,a[0].v[0],a[0].v[1],a[1].x,a[1].v[0],a[2].x,n[0],n[1]);}",
        14,
        "123400pq",
    ),
    (
        "aggr A{int a;lint b;}; void f(A p){p.a=5;p.b=p.a;print(\"%d \",p.a);} void main(){A x;x.a=1;f(x);\
            print(\"%d\\n\",x.a);}",
        20,
        "5 1\n",
    ),
    (
        "aggr A{int a;byte b;}; typedef A F(int);A mk(int x){A a;a.b=x+1;return a;} void main(){F *f;f=mk;\
            print(\"%d\",f(3).b);}",
        7,
        "4",
    ),
    (
        "aggr A{int a;byte b;}; void main(){A x,y;x.a=4;x.b=5;y=zerox x;print(\"%d%d%d%d\\n\",x.a,x.b,y.a,y.b);}",
        16,
        "0045\n",
    ),
    (
        "aggr I{byte b;int c;}; aggr A{I v[2];sint s;}; void main(){A x[2];x[1].v[1].b=3;x[0]=x[1];\
            print(\"%d %d\\n\",x[0].v[1].b,sizeof(A));}",
        16,
        "3 20\n",
    ),
    (
        "aggr R{int t;union{int i;byte c;};}; void main(){R r;r.t=1;r.i=258;print(\"%d %d %d\\n\",r.t,r.c,sizeof(R));}",
        8,
        "1 2 8\n",
    ),
    (
        "union U{int i;sint s;}; U f(){U u;u.i=0x12345;return u;} void main(){print(\"%d\\n\",f().s);}",
        6,
        "9029\n",
    ),
    (
        "union V{byte b[5];sint s;}; void main(){V u,w;u.b[0]=1;u.b[4]=2;u.b[1]=3;w=u;\
            print(\"%d %d %d\\n\",w.s,w.b[4],sizeof w);}",
        15,
        "769 2 6\n",
    ),
    (
        "void main(){int a[5];int *p,*q;p=a;q=&a[4];print(\"%d %d %d %d\\n\",q-p,p-q,p<q,q<=p);p+=2;p-=1;*p++=7;*p--=8;\
            print(\"%d%d%d\\n\",a[1],a[2],p==a+1);}",
        9,
        "4 -4 1 0\n781\n",
    ),
    (
        "void main(){int a[4];int *q;sint s;lint l;a[1]=5;a[2]=6;q=&a[2];s=-1;l=4294967297;\
            print(\"%d %d %d %d %d\\n\",q[-1],q[s],*(q+s),*(s+q),a[l]);}",
        11,
        "5 5 5 5 5\n",
    ),
    (
        "void main(){int a[4];int *q;q=(int*)((byte*)a+6);print(\"%d %d\\n\",q-a,a-q);}",
        4,
        "1 -1\n",
    ),
    (
        "void main(){byte *s;s=\"abc\";print(\"%c%s %d\\n\",s[1],s+1,*\"xyz\");}",
        7,
        "bbc 120\n",
    ),
    (
        "aggr N{int v;N *next;}; void main(){N *h,*p;int i,s;h=nil;for(i=0;i<3;i++){p=nil;alloc p;p->v=i;p->next=h;h=p;}\
            s=0;for(p=h;p!=nil;p=p->next)s=s*10+p->v;print(\"%d\",s);while(h){p=h;h=h->next;unalloc p;}}",
        23,
        "210",
    ),
    (
        "void main(){int *p,*q,*r;byte *b;alloc p,q,r;unalloc q;alloc b;print(\"%x %x %x\",(uint)p,(uint)b,(uint)r);\
            alloc q;print(\" %x\",(uint)q);}",
        9,
        "10000000 10000008 10000010 10000018",
    ),
    (
        "void main(){int i;for(i=0;i<3;i++){int k;k=k+1;print(\"%d\",k);}}",
        4,
        "123",
    ),
    (
        "void main(){tuple(int,lint) t;tuple(int,lint) *p;int a;lint b;p=&t;*p=(1,-2);(a,b)=*p;print(\"%d %d \",a,b);\
            t=(3,4);(nil,b)=*p;print(\"%d %d\",b,sizeof t);}",
        17,
        "1 -2 4 12",
    ),
    (
        "lint f((lint,(int,byte)) t){lint a;int b;byte c;(a,(b,c))=t;return a*100+b*10+c;} void main(){\
            print(\"%d\",f((1,(2,300))));}",
        2,
        "164",
    ),
];

/// Functions, those of adts, pointers to functions and becomes.
const CALLS: [Whole; 9] = [
    (
        "adt C{extern int n;void inc(*C,int);int get(.C);int sum(int,int);}; void C.inc(C *c,int k){c->n=c->n+k;} \
            int C.get(C c){c.n=c.n+1;return c.n;} int C.sum(int a,int b){return a+b;} void main(){C c;C *p;c.n=5;c.inc(2);\
            p=&c;p->inc(3);print(\"%d %d %d %d\\n\",c.get(),p->get(),c.n,c.sum(1,2));}",
        24,
        "11 11 10 3\n",
    ),
    (
        "adt C{int n;int get(.C);C make(int);}; int C.get(C c){return c.n;} C C.make(int k){C c;c.n=k;return c;} C mk(){\
            C c;return c.make(8);} void main(){print(\"%d\\n\",mk().get());}",
        12,
        "8\n",
    ),
    (
        "adt S[T]{T v;void put(*S,T);T get(.S);}; void S[T].put(S *s,T x){s->v=x;} T S[T].get(S s){return s.v;} \
            void main(){S[S[int]] s;S[int] t;t.put(5);s.put(t);t.put(6);print(\"%d %d\",s.get().get(),t.get());}",
        26,
        "5 6",
    ),
    (
        "int f(int n){int a[1];a[0]=n;if(n==0)become a[0]+9;become f(a[0]-1);} void main(){print(\"%d\\n\",f(2));}",
        14,
        "9\n",
    ),
    (
        "adt C{extern int n;int f(*C,int);}; int C.f(C *c,int k){if(k==0)return c->n;c->n=c->n*2;become c->f(k-1);} \
            void main(){C c;c.n=4;print(\"%d\",c.f(3));}",
        12,
        "32",
    ),
    (
        "typedef int Fn(int); int a(int x){return x+1;} int b(int x){return x+4;} void ap(Fn *f){print(\"%d\",f(3));} \
            void main(){Fn *t[2];int i;t[0]=a;t[1]=b;for(i=0;i<2;i++)print(\"%d\",t[i](i));\
            print(\"%d%d\",t[0]==a,t[0]==t[1]);ap(b);}",
        14,
        "15107",
    ),
    (
        "typedef int Fn(int);int dbl(int x){return 2*x;} aggr O{int k;Fn *f;}; void main(){O o;O *p;o.f=dbl;p=&o;o.k=1;\
            print(\"%d %d\",o.f(4),p->f(5));}",
        8,
        "8 10",
    ),
    (
        "aggr A{int x;lint y;}; void f(A a,int k){print(\"%d %d %d\",a.x,a.y,k);} void main(){A a;a.x=1;a.y=-2;\
            task f(a,7);a.x=5;}",
        21,
        "1 -2 7",
    ),
    (
        "int ack(int m,int n){if(m==0)return n+1;if(n==0)return ack(m-1,1);return ack(m-1,ack(m,n-1));} void main(){\
            print(\"%d\\n\",ack(2,2));}",
        2,
        "7\n",
    ),
];

/// Loops, cases, jumps and iterators.
const JUMPS: [Whole; 18] = [
    (
        "void main(){int i;i=1;goto in;for(i=7;i<3;i++){print(\"a\");in:print(\"b%d\",i);}print(\"e\");}",
        5,
        "b1ab2e",
    ),
    (
        "void main(){int n;n=0;rescue A{print(\"A\");n=n+1;if(n<3)raise B;return;} rescue B{print(\"B\");raise A;} raise;\
            }",
        7,
        "BABABA",
    ),
    (
        "void main(){int n;n=0;rescue{print(\"o\");return;} {rescue{print(\"i\");n=n+1;if(n>1)raise;} print(\"m\");raise;\
            }}",
        6,
        "mimio",
    ),
    (
        "void main(){int i;for(i=0;i<3;i++){rescue{print(\"r%d\",i);continue;} if(i==1)raise;print(\"n%d\",i);}}",
        4,
        "n0r1n2",
    ),
    (
        "void main(){int i,j;for(i=0;i<3;i++){for(j=0;j<3;j++){if(j==1)continue 2;if(i==2)break 2;print(\"%d%d \",i,j);}}\
            print(\"\\n\");}",
        4,
        "00 10 \n",
    ),
    (
        "void main(){int i;for(i=0;;i++){switch(i){case 0:print(\"z\");break;case 2:break 2;default:print(\"d\");}\
            print(\";\");}print(\"e\");}",
        6,
        "z;d;e",
    ),
    (
        "void f(int x){switch(x){case 1:print(\"1\");case 2:print(\"2\");break;default:print(\"d\");case 3:print(\"3\");}\
            print(\";\");} void main(){f(0::5);}",
        14,
        "d3;12;2;3;d3;",
    ),
    (
        "void main(){int i;i=5;goto c;switch(i){case 1:print(\"1\");c:print(\"c\");case 2:print(\"2\");break;\
            case 3:print(\"3\");}print(\"e\");}",
        4,
        "c2e",
    ),
    (
        "void main(){sint s;s=-1;switch(s){case -1:print(\"m\");break;default:print(\"d\");}}",
        2,
        "m",
    ),
    (
        "void main(){int i;i=0;while(i<3){i++;switch(i){case 2:continue;} print(\"%d\",i);}}",
        3,
        "13",
    ),
    (
        "void main(){int i;i=0;do{i++;if(i==2)continue;print(\"%d\",i);}while(i<4);}",
        4,
        "134",
    ),
    (
        "void main(){print(\"%d%d \",0::2,0::3);}",
        7,
        "00 01 02 10 11 12 ",
    ),
    (
        "void main(){int a[3];a[0::3]=0::2;print(\"%d%d%d\\n\",a[0],a[1],a[2]);}",
        13,
        "111\n",
    ),
    (
        "void main(){byte b;lint l;b=254;l=4294967298;print(\"%d \",b::256);print(\"%d \",0::l);}",
        5,
        "254 255 0 1 ",
    ),
    (
        "void f(int a,int b){print(\"%d%d \",a,b);} int g(int x){return x*2;} void main(){f(0::2,g(1::3));}",
        5,
        "02 04 12 14 ",
    ),
    (
        "void main(){int i;while(1){for(i=0;;i++){switch(i){case 3:break 3;}}}print(\"%d\",i);}",
        2,
        "3",
    ),
    (
        "void main(){int i,j;i=0;do{j=0;do{print(\"%d%d \",i,j);if(j==1)break;}while(++j<3);}while(++i<2);}",
        5,
        "00 01 10 11 ",
    ),
    (
        "int n;void main(){n++;if(n<3)main();print(\"%d\",n);}",
        16,
        "333",
    ),
];

/// Channels, procs, tasks and pars.
const TALKS: [Whole; 18] = [
    (
        "void main(){chan(int)[1] c;alloc c;print(\"%d%d\",?c,c?);c<-=1;print(\"%d%d\",?c,c?);}",
        9,
        "0110",
    ),
    (
        "void r(chan(int) c){print(\"<%d>\",<-c);} void main(){chan(int) c;alloc c;task r(c);print(\"%d\",c?);par{;}\
            print(\"%d%d\",c?,?c);c<-=7;}",
        14,
        "010<7>",
    ),
    (
        "void main(){chan(int)[1] c,d;int x;alloc c,d;d<-=5;alt{case <-c:print(\"c\");case x=<-d:print(\"d%d\",x);\
            case c<-=9:print(\"f\");break;case d<-=1:print(\"z\");}print(\"%d%d\",?c,?d);}",
        10,
        "d5f00",
    ),
    (
        "void main(){chan((int,byte))[1] c;int a;byte b;alloc c;c<-=(7,300);alt{case (a,b)=<-c:break;}\
            print(\"%d %d\\n\",a,b);}",
        5,
        "7 44\n",
    ),
    (
        "void main(){chan(int)[1] c;alloc c;alt{case c<-=1:switch(1){case 1:print(\"s\");break 2;}print(\"x\");}\
            print(\"%d\",?c);}",
        6,
        "s1",
    ),
    (
        "void main(){chan(int)[2] c;int i;alloc c;for(i=0;i<3;i++){alt{case c<-=i:print(\"s\");continue;\
            case <-c:print(\"r\");}print(\".\");}}",
        9,
        "ssr.",
    ),
    (
        "void s(chan(int) c,chan(int) d){d<-=1;c<-=2;} void main(){chan(int) c,d;int x;alloc c,d;proc s(c,d);alt{\
            case x=<-c:print(\"c%d\",x);break;case x=<-d:print(\"d%d\",x);break;}print(\"%d\",<-c);}",
        11,
        "d12",
    ),
    (
        "void s(chan(chan(int)) cc){<-cc<-=5;} void main(){chan(chan(int)) cc;chan(int) c;alloc cc,c;proc s(cc);cc<-=c;\
            print(\"%d\",<-c);}",
        10,
        "5",
    ),
    (
        "void main(){chan(byte)[1] c;chan(sint)[1] d;chan(lint)[2] e;alloc c,d,e;c<-=300;d<-= -1;e<-= -5;e<-=9000000000;\
            print(\"%d %u %d %d\\n\",<-c,<-d,<-e,<-e);}",
        13,
        "44 4294967295 -5 9000000000\n",
    ),
    (
        "void main(){int a,b,c;par{a=1;{int k;k=5;par{b=k;c=k+2;}}}print(\"%d%d%d\\n\",a,b,c);}",
        21,
        "157\n",
    ),
    (
        "void f(int n){int k;k=n+1;par{{int j;j=k;par{n=n+j;k=k+j;}print(\"%d\",j);}}print(\"%d %d\",n,k);} void main(){\
            f(4);}",
        26,
        "59 10",
    ),
    (
        "void t(){print(\"t\");} void main(){par{{task t();print(\"b\");}}print(\"e\");}",
        8,
        "bte",
    ),
    (
        "void main(){par{{int k;k=0;rescue{print(\"r\");k=1;} if(k==0)raise;print(\"d\");}print(\"o\");}}",
        7,
        "rod",
    ),
    (
        "private int g;void f(){g=5;print(\"%d\",g);} void main(){g=1;par{f();g=7;}print(\"%d\\n\",g);}",
        6,
        "51\n",
    ),
    (
        "private int g;void t(){g=g+4;} void main(){g=1;task t();par{;}print(\"%d\",g);}",
        6,
        "5",
    ),
    (
        "void p(chan(int) c){int i;for(i=3;i>=0;i--)c<-=i;} void main(){chan(int) c;int n,s;alloc c;task p(c);s=0;\
            while((n=<-c)!=0)s+=n;print(\"%d\",s);}",
        13,
        "6",
    ),
    (
        "void f(chan(int) c,int n){if(n==0){c<-=42;return;}proc f(c,n-1);} void main(){chan(int) c;alloc c;proc f(c,3);\
            print(\"%d\",<-c);}",
        13,
        "42",
    ),
    (
        "void s(chan(int) c){c<-=1;c<-=2;} void main(){chan(int)[1] c;int a,b;alloc c;task s(c);par{;}a=<-c;b=<-c;\
            print(\"%d%d\",a,b);}",
        11,
        "12",
    ),
];

/// Turns up to a pause.
const TURNS: [Whole; 10] = [
    ("void main(){int i;for(i=0;i<4096;i++);}", 2, ""),
    ("void main(){int i;for(i=0;i<4095;i++);}", 2, ""),
    ("void main(){int i;for(i=0;i<4094;i++);}", 1, ""),
    ("void main(){int i;for(i=0;i<4095;i++);print(\"\");}", 2, ""),
    ("void main(){int i;i=0;do i++;while(i<4095);}", 1, ""),
    ("void main(){int i;i=0;do i++;while(i<4096);}", 2, ""),
    ("void main(){int i;i+=0::4094;}", 1, ""),
    ("void main(){int i;i+=0::4095;}", 2, ""),
    ("void f(int i){} void main(){f(0::1365);}", 2, ""),
    (
        "void f(int i){} void g(){} void main(){f(0::1364);g();}",
        1,
        "",
    ),
];

/// Texts that trap.
const TRAPS: [Trapped; 12] = [
    (
        "int *f(){int x;x=1;return &x;} void main(){int *p;p=f();print(\"%d\",*p);}",
        Trap::Fault,
        3,
        1,
        "",
    ),
    (
        "void main(){int x;int *p;p=&x;unalloc p;}",
        Trap::Unalloc,
        1,
        1,
        "",
    ),
    (
        "void main(){byte *s;print(\"x%s\",s);}",
        Trap::Fault,
        0,
        1,
        "",
    ),
    (
        "void main(){lint a;a=3;print(\"p\");a=a/(a-3);}",
        Trap::Divide,
        1,
        1,
        "p",
    ),
    (
        "typedef void F(int);int q(){print(\"q\");return 4;} void main(){F *f;f(q());}",
        Trap::Call,
        1,
        1,
        "q",
    ),
    (
        "void main(){chan(byte)[1] c;chan(lint) d;alloc c;d=*(chan(lint)*)&c;d<-=300;}",
        Trap::Chan,
        4,
        1,
        "",
    ),
    (
        "void main(){chan(int)[1] c,d;alloc c,d;unalloc d;alt{case c<-=1:case d<-=2:}}",
        Trap::Chan,
        3,
        1,
        "",
    ),
    (
        "void main(){chan(int) c;alloc c;unalloc c,c;}",
        Trap::Chan,
        2,
        1,
        "",
    ),
    (
        "void main(){int x;chan(int) c;x=99;c=*(chan(int)*)&x;unalloc c;print(\"u\");print(\"%d\",?c);}",
        Trap::Chan,
        5,
        1,
        "u",
    ),
    (
        "void a(chan(int) c,chan(int) d){alt{case <-d:case c<-=1:}} void main(){chan(int) c,d;alloc c,d;task a(c,d);par{;\
            }unalloc c;}",
        Trap::Busy,
        6,
        1,
        "",
    ),
    (
        "void main(){chan(int)[2] c;alloc c;c<-=1;unalloc c;print(\"x%d\",c?);}",
        Trap::Chan,
        3,
        1,
        "",
    ),
    (
        "void main(){int *p;while(1)alloc p;}",
        Trap::Memory,
        65536,
        1,
        "",
    ),
];

/// Texts that go on to their end along a schedule.
const ALONG: [(&str, &[(u32, u16)], u32, &str); 7] = [
    (
        "void main(){chan(int)[1] c,d;int x;alloc c,d;d<-=5;alt{case <-c:print(\"c\");case x=<-d:print(\"d%d\",x);\
            case c<-=9:print(\"f\");break;case d<-=1:print(\"z\");}print(\"%d%d\",?c,?d);}",
        &[
            (0, 0),
            (0, 0),
            (0, 0),
            (0, 1),
            (0, 0),
            (0, 0),
            (0, 0),
            (0, 0),
            (0, 0),
        ],
        9,
        "f11",
    ),
    (
        "void s(chan(int) c,int v){c<-=v;} void main(){chan(int) c;alloc c;proc s(c,1),s(c,2);print(\"%d\",<-c);\
            print(\"%d\",<-c);}",
        &[
            (0, 0),
            (0, 0),
            (0, 0),
            (1, 0),
            (2, 0),
            (0, 1),
            (0, 0),
            (0, 0),
            (0, 0),
            (0, 0),
            (1, 0),
            (2, 0),
        ],
        12,
        "21",
    ),
    (
        "void s(chan(int) c,chan(int) d){d<-=1;c<-=2;} void main(){chan(int) c,d;int x;alloc c,d;proc s(c,d);alt{\
            case x=<-c:print(\"c%d\",x);break;case x=<-d:print(\"d%d\",x);break;}print(\"%d\",<-c);}",
        &[
            (0, 0),
            (0, 0),
            (0, 0),
            (0, 0),
            (1, 0),
            (1, 0),
            (0, 0),
            (0, 0),
            (1, 0),
            (0, 0),
            (0, 0),
        ],
        11,
        "d12",
    ),
    (
        "int i;void s(chan(int) c){i=1;c<-=7;} void main(){chan(int) c;int a[2];alloc c;proc s(c);a[i]=<-c;\
            print(\"%d%d\",a[0],a[1]);}",
        &[
            (0, 0),
            (0, 0),
            (0, 0),
            (0, 0),
            (0, 0),
            (1, 0),
            (1, 0),
            (1, 0),
            (0, 0),
            (0, 0),
            (0, 0),
            (0, 0),
            (0, 0),
            (0, 0),
        ],
        14,
        "70",
    ),
    (
        "int i;void s(chan(int) c){i=1;c<-=7;} void main(){chan(int) c;int a[2];alloc c;proc s(c);alt{\
            case a[i]=<-c:break;}print(\"%d%d\",a[0],a[1]);}",
        &[
            (0, 0),
            (0, 0),
            (0, 0),
            (0, 0),
            (1, 0),
            (1, 0),
            (1, 0),
            (0, 0),
            (0, 0),
            (0, 0),
            (0, 0),
            (0, 0),
            (0, 0),
            (0, 0),
        ],
        14,
        "07",
    ),
    (
        "void r(chan(int) c,int k){int x,y;alt{case x=<-c:print(\"a%d%d \",k,x);break;case y=<-c:print(\"b%d%d \",k,y);}\
            } void main(){chan(int)[2] c;alloc c;proc r(c,1),r(c,2);c<-=5;c<-=6;}",
        &[
            (0, 0),
            (0, 0),
            (0, 0),
            (1, 0),
            (2, 0),
            (0, 0),
            (0, 0),
            (0, 0),
            (1, 0),
            (2, 0),
            (1, 0),
            (2, 0),
        ],
        12,
        "a15 a26 ",
    ),
    (
        "void r(chan(int) c,int k){int x,y;alt{case x=<-c:print(\"a%d%d \",k,x);break;case y=<-c:print(\"b%d%d \",k,y);}\
            } void main(){chan(int) c;alloc c;proc r(c,1),r(c,2);c<-=5;c<-=6;}",
        &[
            (0, 0),
            (0, 0),
            (0, 0),
            (1, 0),
            (2, 0),
            (0, 3),
            (0, 1),
            (0, 0),
            (2, 0),
            (1, 0),
            (1, 0),
            (2, 0),
        ],
        12,
        "b25 b16 ",
    ),
];

#[test]
fn constructs_do_what_they_say(rt: HostRuntime) -> Result<(), Fail> {
    let tables: [&[Whole]; 7] = [&NUMBERS, &ORDER, &DATA, &CALLS, &JUMPS, &TALKS, &TURNS];
    for table in tables {
        for (text, entries, output) in table {
            let row = whole(Along::Turns(0x1000), text, *entries, output);
            compare(&rt, rt.alloc(), REGION, &row)?;
        }
    }
    for (text, along, entries, output) in &ALONG {
        let row = whole(Along::Entries(along), text, *entries, output);
        compare(&rt, rt.alloc(), REGION, &row)?;
    }
    Ok(())
}

#[test]
fn constructs_trap(rt: HostRuntime) -> Result<(), Fail> {
    for it in &TRAPS {
        compare(&rt, rt.alloc(), REGION, &trapped(it))?;
    }
    Ok(())
}
