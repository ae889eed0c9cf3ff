//! Tables of texts, each in a line, with their tokens or their fault. A byte that is no letter, digit or sign of ASCII is
//! written by a backquote and two hexadecimal digits.

/// Texts with the kinds of their tokens.
pub static TOKENS: &str = "\
adt aggr alloc alt become break byte case chan check continue default do else enum extern float for goto if int intern lint nil par private proc raise rescue return sint sizeof switch task tuple typedef typeof uint ulint unalloc union usint void while zerox => Adt Aggr Alloc Alt Become Break Byte Case Chan Check Continue Default Do Else Enum Extern Float For Goto If Int Intern Lint Nil Par Private Proc Raise Rescue Return Sint Sizeof Switch Task Tuple Typedef Typeof Uint Ulint Unalloc Union Usint Void While Zerox End
{ } ( ) [ ] ; , . -> : :: ? ++ -- + - * / % & | ^ ~ ! << >> < > <= >= == != && || = += -= *= /= %= &= |= ^= <<= >>= <- <-= => LeftBrace RightBrace LeftParen RightParen LeftBracket RightBracket Semicolon Comma Dot Arrow Colon ColonColon Question PlusPlus MinusMinus Plus Minus Star Slash Percent And Or Caret Tilde Not ShiftLeft ShiftRight Less Greater LessEqual GreaterEqual EqualEqual NotEqual AndAnd OrOr Equal PlusEqual MinusEqual StarEqual SlashEqual PercentEqual AndEqual OrEqual CaretEqual ShiftLeftEqual ShiftRightEqual LeftArrow LeftArrowEqual End
 => End
 `09`0d`0a`0c => End
a<-1 => Name LeftArrow Number End
a<-=1 => Name LeftArrowEqual Number End
a<- =1 => Name LeftArrow Equal Number End
a<--1 => Name LeftArrow Minus Number End
a<<=b>>=c => Name ShiftLeftEqual Name ShiftRightEqual Name End
a:::b => Name ColonColon Colon Name End
a+++b => Name PlusPlus Plus Name End
a---b => Name MinusMinus Minus Name End
a->b-->c => Name Arrow Name MinusMinus Greater Name End
a&&&b|||c => Name AndAnd And Name OrOr Or Name End
!=!== => NotEqual NotEqual Equal End
=== => EqualEqual Equal End
if iff _if If if1 => If Name Name Name Name End
usint usin usints => Usint Name Name End
x_1 _ __ Z9 => Name Name Name Name End
0 7 00 017 10 => Number Number Number Number Number End
0x0 0xfF 0xABCDEF0123456789 => Number Number Number End
2147483647 2147483648 => Number Number End
4294967295 4294967296 => Number Number End
9223372036854775807 9223372036854775808 18446744073709551615 => Number Number Number End
0xffffffffffffffff 01777777777777777777777 => Number Number End
00000000000000000000000000000001 => Number End
09 08 => Number Number Number Number End
0x => Number Name End
0xg => Number Name End
0X1 => Number Name End
12ab => Number Name End
1.5 => Number Dot Number End
0779 => Number Number End
'a' ' ' '\"' '`ff' => Char Char Char Char End
'\\n' '\\r' '\\t' '\\b' '\\f' '\\a' '\\v' '\\\\' '\\\"' '\\'' => Char Char Char Char Char Char Char Char Char Char End
'\\0' '\\7' '\\12' '\\123' '\\377' => Char Char Char Char Char End
'\\x0' '\\xf' '\\xFF' '\\x41' => Char Char Char Char End
'`09' => Char End
\"\" => Text End
\"a b\" \"`c3`a9`ff\" => Text Text End
\"\\n\\r\\t\\b\\f\\a\\v\\\\\\\"\\'\" => Text End
\"\\0\\12\\123\\377\\400\\x4\\x41g\" => Text End
\"\\\\\" \"\\\"\" \"\\\\\\\"\" => Text Text Text End
\"/*\" \"//\" \"#\" => Text Text Text End
/**/ => End
/***/a => Name End
/*/ */a => Name End
/* \" */ /* // */ a => Name End
a//b`0ac => Name Name End
a// => Name End
a/b/=c/ *d => Name Slash Name SlashEqual Name Slash Star Name End
/*`0a*/ a => Name End
#include <alef.h>`0aa => Name End
 `09#include `09<alef.h> `09`0d`0aa => Name End
#line 1 \"x.l\"`0aa => Name End
# 12 \"x\" `0a# 3 \"\"`0a => End
a`0a# 1 \"/usr/b c\" => Name End
#line`09007 \"'#\\\" => End
";

/// Texts with their fault and its byte.
pub static FAULTS: &str = "\
@ => BadChar 0
a $ => BadChar 2
`60 => BadChar 0
a\\ => BadChar 1
`ff => BadChar 0
a`00 => BadChar 1
a`0b => BadChar 1
' => BadChar 0
'' => BadChar 0
'ab' => BadChar 0
a 'b => BadChar 2
'`0a' => BadChar 0
'\\400' => BadChar 0
'\\x414' => BadChar 0
'\\n => BadChar 0
'\\1234' => BadChar 0
# => BadChar 0
#include<alef.h> => BadChar 0
# include <alef.h> => BadChar 0
#include <stdio.h> => BadChar 0
a #include <alef.h> => BadChar 2
/* */#include <alef.h> => BadChar 5
/*`0a*/# 1 \"x\" => BadChar 5
#include <alef.h> int x; => BadChar 0
#line1 \"x\" => BadChar 0
# 1\"x\" => BadChar 0
# 1 \"x => BadChar 0
# x \"x\" => BadChar 0
`0d# 1 \"x\" => BadChar 1
void main(){/* => OpenComment 12
/* => OpenComment 0
a /* b * / => OpenComment 2
/*/ => OpenComment 0
\" => OpenString 0
a \"b => OpenString 2
\"a`0a\" => OpenString 0
\"\\\" => OpenString 0
\"a`0a\\q\" => OpenString 0
\"\\q\" => BadEscape 1
'\\q' => BadEscape 1
a \"b\\x\" => BadEscape 4
\"\\8\" => BadEscape 1
\"\\ => BadEscape 1
'\\ => BadEscape 1
\"ab\\`0a\" => BadEscape 3
\"\\q => BadEscape 1
\"\\\\\\q\" => BadEscape 3
'\\xg' => BadEscape 1
18446744073709551616 => NumberTooBig 0
a=0x10000000000000000; => NumberTooBig 2
02000000000000000000000 => NumberTooBig 0
99999999999999999999999 => NumberTooBig 0
";

/// Strings with their bytes.
pub static STRINGS: &str = "\
\"\" => 
\"ab\" => ab
\"a\\n\\\"b\" => a`0a\"b
\"\\x414\\x4g\" => A4`04g
\"\\1018\\4001\" => A8 01
\"\\0`ff\" => `00`ff
";
